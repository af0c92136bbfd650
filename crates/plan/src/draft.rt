ghost use Rattle.std.specs.Prelude.{◌≡◌};
ghost use Rattle.plan.specs.Adding.{empty};
ghost use Rattle.plan.specs.Drafts.{lines_taken, AddsLine, Seals};
ghost use Rattle.plan.specs.KeepsLimits.{KeepsLimits};
ghost use Rattle.plan.specs.Of.{contents_of, plan_contents};

use crate::plan::Plan;
use crate::tables::Tables;
use text::refusal::Refusal;

/// A plan in the making. Its tables lie in a place that is lent at each call; the draft counts the
/// lines. It is moved from call to call, ends in a sealed plan or is discarded, and is not let go
/// otherwise.
// `Drop` asks for what no draft has. So a draft that is forgotten is refused by the prover: a type
// without `Drop` would be refused before the prover is asked.
#[derive(Debug, PartialEq, Eq)]
pub struct Draft {
    // the number of the next line, counted from 1
    next: usize,
}

impl Drop for Draft {
    // Runs for no draft: by the contracts of `new` and `add` none has 0.
    fn drop(self)
        requires { self.next ≡ 0 }
    {
        let Draft { next: _ } = self;
    }
}

/// Why a line or a sealing was refused, and where.
#[derive(Clone, Copy, Debug, PartialEq, Eq)]
pub struct Refused {
    /// The reason, with its number.
    pub refusal: Refusal,
    /// The number of the line, counted from 1: of a sealing one more than lines were taken; 0 where
    /// a plan has no end.
    pub line: usize,
}

impl Draft {
    /// Begins a draft that has taken no line, and empties the tables that are lent for it: what
    /// another draft put there is gone.
    pub fn new(tables: &mut Tables) -> Draft
        ensures first { result.next ≡ 1 }
        ensures empty { contents_of tables.new ≡ empty }
    {
        *tables = Tables::new();
        Draft { next: 1 }
    }

    /// Lets a draft go, and answers how many lines it took.
    pub fn discard(self) -> usize
        ensures { result ≡ lines_taken self }
    {
        let Draft { next } = self;
        next.saturating_sub(1)
    }

    /// Takes one line, with its newline, into the tables that are lent. Where the line is refused
    /// (16 to 19), the tables are as they were and the draft comes back, to go on.
    pub fn add(self, tables: &mut Tables, line: &[u8]) -> Result<Draft, (Draft, Refused)>
        ensures { AddsLine self line.now tables.old result tables.new }
    {
        match tables.take_line(line) {
            Ok(()) => {
                let next = self.next.saturating_add(1);
                let Draft { next: _ } = self;
                Ok(Draft { next })
            }
            Err(refusal) => {
                let line = self.next;
                Err((self, Refused { refusal, line }))
            }
        }
    }

    /// Ends the draft: the place of a plan takes over the tables that are lent. Where a cluster, a
    /// resource or a task is missing (20), the place is as it was and the draft comes back, to go
    /// on.
    #[tactic(auto, using(crate::proofs::KeepsLimits::keeps_limits))]
    pub fn seal(self, tables: &Tables, into: &mut Plan) -> Result<(), (Draft, Refused)>
        ensures seals { Seals self tables.now into.old result into.new }
        ensures limits { KeepsLimits (plan_contents into.new) }
    {
        if tables.clusters.len() == 0 || tables.resources.len() == 0 || tables.tasks.len() == 0 {
            let refusal = Refusal::Incomplete;
            let line = self.next;
            return Err((self, Refused { refusal, line }));
        }
        *into = Plan { tables: *tables };
        self.discard();
        Ok(())
    }
}
