ghost use Rattle.std.specs.Prelude.{◌≡◌, length, Some, None, count_by};
ghost use Rattle.std.specs.List.{IsFirstBest};
ghost use Rattle.std.specs.Ordering.{is_lt};

/// Counts the elements of a row that are less than x.
pub fn count_before<T: Ord>(row: &[T], x: &T) -> usize
    ensures { result ≡ count_by (λ y. is_lt (T.cmp y x.now)) row.now }
{
    let mut n = 0;
    for y in row {
        if y < x {
            n += 1;
        }
    }
    n
}

/// The place of a row's least element, the first place where several are equal; none in an empty
/// row.
pub fn first_of<T: Ord>(row: &[T]) -> Option<usize>
    ensures { elim result [ None ↦ length row.now ≡ 0 | Some b ↦ IsFirstBest (λ x y. is_lt (T.cmp x y)) row.now (length row.now) b ] }
{
    let mut best = None;
    for (i, x) in row.iter().enumerate() {
        match best {
            Some((_, least)) if least <= x => {}
            _ => best = Some((i, x)),
        }
    }
    best.map(|(i, _)| i)
}
