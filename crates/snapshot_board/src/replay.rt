//! Values that take messages one after another.

ghost use Rattle.std.specs.Prelude.{◌≡◌};

/// A value whose meaning after a message is a function of its meaning before and of the message.
/// A step takes every message that fits in the meaning, wants no memory and always returns.
pub trait Replay: Drop {
    /// What is posted.
    type Msg: Drop;

    /// The type of the meaning. No value of it is made.
    type State;

    /// What a value means.
    ghost meaning: { Self → Self.State };

    /// The meaning after a message.
    ghost after: { Self.State → Self.Msg → Self.State };

    /// Which messages a value with a meaning may be given: no other is posted.
    ghost fits: { Self.State → Self.Msg → Type 0 };

    /// Takes a message that fits.
    fn step(&mut self, m: &Self::Msg)
        requires fits { ∥ fits (meaning self.old) m.now ∥₁ }
        ensures { meaning self.new ≡ after (meaning self.old) m.now };

    /// Takes a message that another value took last, which meant the same before. What that one
    /// computed need not be computed again.
    fn follow(&mut self, m: &Self::Msg, other: &Self)
        requires { meaning other.now ≡ after (meaning self.old) m.now }
        ensures { meaning self.new ≡ after (meaning self.old) m.now };
}
