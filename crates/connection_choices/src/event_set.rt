//! Events that are told by a test.

ghost use Rattle.std.specs.Prelude.{◌≡◌, Bool};
ghost use Rattle.mt_base.specs.declared.keys.Node.{Node as ANode};

use mt_base::keys::Node;

/// A set of events, by a test of their names.
pub trait EventSet {
    ghost holds: { Self → ANode → Bool };

    /// Whether the event is one of them.
    fn has(&self, n: &Node) -> bool
        ensures { result ≡ holds self.now n.now };
}
