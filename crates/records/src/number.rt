// Numbers that follow one another: the `checked_add(1)` and `next()` of the original.
ghost use Rattle.std.specs.Prelude.{◌≡◌, ◌+◌, eqb};

// Whether next is one more than value.
pub fn is_next(value: u64, next: u64) -> bool
    ensures { result ≡ eqb (value + 1) next }
{
    value.checked_add(1) == Some(next)
}
