ghost use Rattle.std.specs.Cmp.{on_total, partial_order_from_agreeing_total};
ghost use Rattle.std.specs.Ordering.{as_partial_cmp, on};
ghost use Rattle.std.specs.declared.cmp.Ordering.TheVariants.{Equal};
ghost use Rattle.std.specs.Prelude.{◌≡◌, if◌then◌else◌, nat_eq, nat_lt, refl};
ghost use Rattle.order.specs.Laws.{absent_last_total, absent_last_ties};
ghost use Rattle.order.specs.Orders.{SameIfEqual, SameIfNeither, absent_last};

use std::cmp::Ordering;

/// A job, by its release number and then by its task.
#[derive(Clone, Copy, Debug, Default, PartialEq, Eq, PartialOrd, Ord)]
pub struct Job {
    /// Its release number.
    pub release: u32,
    /// Its task.
    pub task: u32,
}

impl Job {
    /// Whether it was released before the other job, or has the same number and a lower task.
    #[tactic(auto, using(crate::proofs::Apart::job_apart))]
    pub fn precedes(&self, job: &Job) -> bool
        ensures value { result ≡ (if nat_eq self.now.release job.now.release
            then nat_lt self.now.task job.now.task
            else nat_lt self.now.release job.now.release) }
        ensures apart { SameIfNeither ⟦<Job as Ord>⟧.cmp result self.now job.now }
    {
        self < job
    }
}

/// A holder, by the ticks that it has left and then by its task.
#[derive(Clone, Copy, Debug, Default, PartialEq, Eq, PartialOrd, Ord)]
pub struct Holder {
    /// The ticks that it has left.
    pub left: u32,
    /// Its task.
    pub task: u32,
}

impl Holder {
    /// Whether it has fewer ticks left than the other holder, or as many and a lower task.
    #[tactic(auto, using(crate::proofs::Apart::holder_apart))]
    pub fn precedes(&self, holder: &Holder) -> bool
        ensures value { result ≡ (if nat_eq self.now.left holder.now.left
            then nat_lt self.now.task holder.now.task
            else nat_lt self.now.left holder.now.left) }
        ensures apart { SameIfNeither ⟦<Holder as Ord>⟧.cmp result self.now holder.now }
    {
        self < holder
    }
}

/// What may be absent: what is there comes before what is absent.
#[derive(Clone, Copy, Debug, PartialEq, Eq)]
pub struct AbsentLast<T>(
    /// The element, if it is there.
    pub Option<T>,
);

impl<T: Ord> Ord for AbsentLast<T> {
    ghost cmp = { on (λ x. x.0) (absent_last T.cmp) };

    ghost total = { on_total (λ x. x.0) (absent_last_total T.Ord.total) };

    ghost matches_partial_cmp = { λ x y. refl };

    ghost matches_eq = { λ x y. absent_last_ties T.cmp T.Ord.matches_eq x.0 y.0 };

    #[tactic(auto, using(crate::proofs::Apart::absent_last_apart))]
    fn cmp(&self, other: &AbsentLast<T>) -> Ordering
        ensures value { result ≡ absent_last T.cmp self.now.0 other.now.0 }
        ensures apart { SameIfEqual T.cmp → result ≡ Equal → self.now ≡ other.now }
    {
        match (&self.0, &other.0) {
            (Some(x), Some(y)) => x.cmp(y),
            (Some(_), None) => Ordering::Less,
            (None, Some(_)) => Ordering::Greater,
            (None, None) => Ordering::Equal,
        }
    }
}

impl<T: Ord> PartialOrd for AbsentLast<T> {
    ghost partial_cmp = { as_partial_cmp (on (λ x. x.0) (absent_last T.cmp)) };

    ghost laws = { partial_order_from_agreeing_total (on (λ x. x.0) (absent_last T.cmp))
        (on_total (λ x. x.0) (absent_last_total T.Ord.total)) (λ x y. refl)
        (λ x y. absent_last_ties T.cmp T.Ord.matches_eq x.0 y.0) };

    fn partial_cmp(&self, other: &AbsentLast<T>) -> Option<Ordering> {
        Some(self.cmp(other))
    }
}
