// What a kind of grade is.
ghost use Rattle.std.specs.Prelude.{◌≡◌, ℕ, Bool};
ghost use Rattle.kinds.specs.Laws.{Laws};

// The impls have one shape and share no rule: each states its members of its own definitions, and proves its laws.
// A kind of grade. A grade says how good a link is, and a label how good the way is by which a station was reached.
pub trait Kind {
    type Label: Copy;

    type Grade: Copy;

    ghost start: { Self.Label };

    ghost carry: { Self.Label → Self.Grade → Self.Label };

    ghost at_least: { Self.Label → Self.Label → Bool };

    ghost rank: { Self.Label → ℕ };

    // The label of the gateway.
    fn start() -> Self::Label
        ensures { result ≡ start };

    // What a label becomes over a link of this grade.
    fn carry(label: Self::Label, grade: Self::Grade) -> Self::Label
        ensures { result ≡ carry label grade };

    fn at_least_as_good(a: Self::Label, b: Self::Label) -> bool
        ensures { result ≡ at_least a b };

    // A number that follows the order: the better of two labels does not rank higher.
    fn rank(label: Self::Label) -> u32
        ensures { result ≡ rank label };

    ghost lawful: { Laws carry at_least rank };
}
