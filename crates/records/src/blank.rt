// Values that may be absent: what stands in their place then is all zero.
//
// `x == X::default()` makes a blank first: the representability check took 1.8 to 2.8 times as long.
// No loop is left early, so that many bytes are tested at once.
ghost use Rattle.std.specs.Prelude.{◌≡◌, Bool, false, eqb, length, replicate};
ghost use Rattle.std.specs.Bool.{beq};
ghost use Rattle.records.specs.Equality.{eq_list};

// A value that may be absent: what stands in its place then is all zero.
pub trait Blank {
    // What stands in its place.
    ghost blank: { Self };

    // What `==` answers.
    ghost same: { Self → Self → Bool };

    // Whether it is absent.
    fn is_blank(&self) -> bool
        ensures { result ≡ same self.now blank };
}

impl Blank for bool {
    ghost blank = { false };

    ghost same = { beq };

    fn is_blank(&self) -> bool {
        !*self
    }
}

// There is an `impl` for each type of number, since the library has no trait of all of them.
impl Blank for u8 {
    ghost blank = { 0 };

    ghost same = { eqb };

    fn is_blank(&self) -> bool {
        *self == 0
    }
}

impl Blank for u16 {
    ghost blank = { 0 };

    ghost same = { eqb };

    fn is_blank(&self) -> bool {
        *self == 0
    }
}

impl Blank for u64 {
    ghost blank = { 0 };

    ghost same = { eqb };

    fn is_blank(&self) -> bool {
        *self == 0
    }
}

impl Blank for usize {
    ghost blank = { 0 };

    ghost same = { eqb };

    fn is_blank(&self) -> bool {
        *self == 0
    }
}

impl<T: Blank, const N: usize> Blank for [T; N] {
    ghost blank = { replicate N T.blank };

    ghost same = { eq_list T.same };

    fn is_blank(&self) -> bool {
        are_blank(self)
    }
}

// Whether each of the values is blank.
pub fn are_blank<T: Blank>(values: &[T]) -> bool
    ensures { result ≡ eq_list T.same values.now (replicate (length values.now) T.blank) }
{
    let mut all = true;
    for value in values {
        all = all & value.is_blank();
    }
    all
}
