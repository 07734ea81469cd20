//! What is tried.
ghost use Rattle.std.specs.Prelude.{◌≡◌, ◌+◌, ℕ, IfOk, IfErr, OnErr};
ghost use Rattle.std.specs.Result.{result_err};
ghost use Rattle.std.specs.declared.option.Option.{Option};

/// What can be tried again where it was refused.
///
/// `refuses` and `gives` speak of all tries of one call, as far as they have come. So what a call promises is what one
/// try promises, and what the refused tries before it leave.
///
/// A type that tries something of its caller's holds it by `&mut`. For the caller to know its value afterwards,
/// `refuses` and `gives` say that this is still the same reference, by its `ghost_name`.
pub trait Attempt {
    /// What a try that succeeds gives.
    type Got;

    /// Why a try is refused.
    type Fault: Drop;

    /// What a try needs, and what a refused one leaves again.
    ghost ready: { Self → Type 0 };

    /// How many tries were made. The number has no last value, and no code need keep it.
    ghost tries: { Self → ℕ };

    /// What the latest try was refused with, or nothing where it succeeded.
    ghost fault: { Self → Option Self.Fault };

    /// What holds where tries were made one after the other and all were refused: of the attempt before the first of
    /// them, of the last one's fault, and of the attempt after it.
    ghost refuses: { Self → Self.Fault → Self → Type 0 };

    /// What holds where tries were made one after the other and all were refused but the last: of the attempt before
    /// the first of them, of what the last one gave, and of the attempt after it.
    ghost gives: { Self → Self.Got → Self → Type 0 };

    /// Tries once.
    fn attempt(&mut self) -> Result<Self::Got, Self::Fault>
        requires { ready self.old }
        ensures tries { tries self.new ≡ tries self.old + 1 }
        ensures fault { fault self.new ≡ result_err result }
        ensures gives { IfOk result (λ got. gives self.old got self.new) }
        ensures refuses { IfErr result (λ fault. refuses self.old fault self.new) }
        ensures ready { OnErr result (ready self.new) };

    /// Refused tries after refused ones.
    ghost refuses_again: { (a b c : Self) (f g : Self.Fault)
        → refuses a f b → refuses b g c → refuses a g c };

    /// A try that succeeds after refused ones.
    ghost gives_at_last: { (a b c : Self) (f : Self.Fault) (got : Self.Got)
        → refuses a f b → gives b got c → gives a got c };
}
