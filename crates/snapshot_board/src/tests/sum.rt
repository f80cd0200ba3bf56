//! A small value: a sum, whose messages are added.

ghost use Rattle.std.specs.Prelude.{◌≡◌, ◌+◌, ◌%◌, ◌^◌};

use crate::replay::Replay;

#[derive(Drop)]
pub struct Sum {
    pub total: u64,

    /// How many messages it took as another sum had taken them.
    pub followed: u64,
}

impl Sum {
    /// Nothing was added, and no message was taken as another had taken it.
    pub fn zero() -> Sum
        ensures { result ≡ record { total = 0; followed = 0 } }
    {
        Sum {
            total: 0,
            followed: 0,
        }
    }
}

impl Replay for Sum {
    type Msg = u32;

    type State = u64;

    ghost meaning = { λ s. s.total };

    ghost after = { λ n m. (n + m) % 2 ^ 64 };

    ghost fits = { λ n m. Unit {0} };

    fn step(&mut self, m: &u32) {
        self.total = self.total.wrapping_add(u64::from(*m));
    }

    fn follow(&mut self, _m: &u32, other: &Sum) {
        self.total = other.total;
        self.followed = self.followed.saturating_add(1);
    }
}
