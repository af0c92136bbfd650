ghost use Rattle.std.specs.Prelude.{◌≡◌, ℕ, ◌+◌, ◌<◌, ◌≤◌, ◌++◌, length};
ghost use Rattle.std.specs.List.{filter_map};
ghost use Rattle.arrayvec.specs.ArrayVec.{array_vec_len};
ghost use Rattle.plan.specs.Of.{plan_contents};
ghost use Rattle.rules.specs.Jobs.{before, jobs_of, ranks, runs, is_among_first};
ghost use Rattle.table.specs.Rows.{job_at, selects};
ghost use Rattle.table.specs.Tables.{records_of};

use crate::selection::Selection;
use crate::table::Table;
use arrayvec::ArrayVec;
use order::elements::Job;
use order::row::count_before;
use rules::task::Task;

impl Table<'_> {
    // The record of a task.
    #[inline(always)]
    pub(crate) fn task(&self, task: usize) -> Task
        ensures { result ≡ records_of self.now task }
    {
        if task < self.tasks && self.ended != Some(task) {
            self.rows[task]
        } else {
            Task::IDLE
        }
    }

    // The job of a task, if it is selected.
    #[inline(always)]
    fn job_at(&self, which: Selection, task: u8) -> Option<Job>
        ensures { result ≡ job_at (records_of self.now) which task }
    {
        let Task { state, release, .. } = self.task(task as usize);
        which.has(state).then_some(Job {
            release,
            task: task as u32,
        })
    }

    // Appends the jobs of those of some tasks that are selected.
    #[inline(always)]
    pub(crate) fn add_jobs<const N: usize>(
        &self,
        which: Selection,
        tasks: &[u8],
        row: &mut ArrayVec<Job, N>,
    )
        requires { array_vec_len row.old + length tasks.now ≤ N }
        ensures items { row.new.items ≡ row.old.items
            ++ filter_map (job_at (records_of self.now) which) tasks.now }
        ensures few { array_vec_len row.new ≤ array_vec_len row.old + length tasks.now }
    {
        for task in tasks {
            if let Some(job) = self.job_at(which, *task) {
                row.push(job);
            }
        }
    }

    // How many selected jobs of its cluster come before that of a task.
    #[inline(always)]
    fn jobs_before(&self, which: Selection, task: usize) -> usize
        requires { task < self.now.tasks }
        ensures { result ≡ before (plan_contents self.now.plan.now) self.now.tasks
            (jobs_of (records_of self.now))
            (λ u. selects which (records_of self.now u).state) task }
    {
        let Task { release, .. } = self.task(task);
        // with task 0, so that no job of the same number comes before it
        let job = Job { release, task: 0 };
        let mut before = 0;
        let mut rest = self.members_of(self.cluster_of(task));
        // eight at a time, since a row is as dear to clear as it is long
        while !rest.is_empty() {
            let (tasks, others) = rest.split_at(rest.len().min(8));
            let mut row: ArrayVec<Job, 8> = ArrayVec::new();
            self.add_jobs(which, tasks, &mut row);
            before += count_before(row.as_slice(), &job);
            rest = others;
        }
        before
    }

    // Whether the job of a task is selected, and fewer such come before it than its cluster has processors.
    #[inline(always)]
    fn ranks(&self, which: Selection, task: usize) -> bool
        ensures { result ≡ ranks (plan_contents self.now.plan.now) self.now.tasks
            (jobs_of (records_of self.now))
            (λ u. selects which (records_of self.now u).state) task }
    {
        let Task { state, .. } = self.task(task);
        which.has(state) && self.jobs_before(which, task) < self.processors_for(task) as usize
    }

    /// Whether the job of a task is ready and runs: fewer ready jobs of its cluster were released
    /// before it than the cluster has processors.
    pub fn runs(&self, task: usize) -> bool
        ensures { result ≡ runs (plan_contents self.now.plan.now) self.now.tasks
            (jobs_of (records_of self.now)) task }
    {
        self.ranks(Selection::Ready, task)
    }

    /// Whether the job of a task is among the first of its cluster: fewer unfinished jobs of the
    /// cluster were released before it than the cluster has processors.
    pub fn is_first(&self, task: usize) -> bool
        ensures { result ≡ is_among_first (plan_contents self.now.plan.now) self.now.tasks
            (jobs_of (records_of self.now)) task }
    {
        self.ranks(Selection::Unfinished, task)
    }
}
