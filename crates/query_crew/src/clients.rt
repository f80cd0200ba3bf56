//! Who asks queries, and which worker answers them.

ghost use Rattle.std.specs.Prelude.{◌≡◌, ◌%◌, ◌<◌, ◌≤◌, sum};

use mt_base::names::Name;
use std::marker::Model;

/// Who asks a query, seen as the bytes of the client's name. Their sum, which tells the worker that
/// answers, is computed once.
#[derive(Drop)]
pub struct Client {
    name: Name,
    total: u128,
}

impl Model for Client {
    ghost use Rattle.std.specs.Prelude.{◌≡◌, List, ℕ, sum};

    ghost Value = { List ℕ };

    ghost view = { λ c. c.name };

    ghost invariant = { λ c. c.total ≡ sum c.name };
}

impl Client {
    /// The client of this name.
    pub fn build(name: Name) -> Client
        ensures { result ≡ name }
    {
        let total = sum_of(name.text().as_bytes());
        Client { name, total }
    }

    /// The number of the worker that answers this client's queries, of so many workers: the sum of
    /// the bytes of the client's name modulo the number of workers.
    pub fn worker(&self, workers: u32) -> u32
        requires { 1 ≤ workers }
        ensures value { result ≡ sum self.now % workers }
        ensures below { result < workers }
    {
        (self.total % u128::from(workers)) as u32
    }
}

/// The sum of these bytes.
fn sum_of(bytes: &[u8]) -> u128
    ensures { result ≡ sum bytes.now }
{
    let mut total = 0;
    for byte in bytes {
        total += u128::from(*byte);
    }
    total
}
