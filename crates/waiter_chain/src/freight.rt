//! What a chain carries.

/// The type of what stands in a chain's slots. It says which value a chain may begin with, what a job on the value is
/// and what it does, and it brings a rule over all that the chain carries: the value, the jobs that wait, the answers
/// that wait, and the quota and the answers of each pass. Its laws say that the rule is kept by each step that changes
/// one of these.
pub trait Freight {
    ghost use Rattle.std.specs.Prelude.{ℕ, ◌<◌, ◌^◌};
    ghost use Rattle.waiter_chain.specs.declared.view.Opening.{Opening};
    ghost use Rattle.waiter_chain.specs.Goods.{Goods, opened, Posts, Ends, Serves, Collects, Cuts, Merges};

    // A value, a job, its answer and the value afterwards.
    ghost relates: { Self → Self → Self → Self → Type 0 };
    // A first value, with a quota.
    ghost admits: { Self → ℕ → Type 0 };

    ghost is_job: { Self → Type 0 };
    // Of what the chain was made with, and of all that it carries.
    ghost rule: { Opening Self → Goods Self → Type 0 };

    ghost opens: { (o : Opening Self) → o.quota < 2 ^ 64 → admits o.first.value o.quota → rule o (opened o.first.value o.quota) };
    // A node posts a job.
    ghost posts: { (o : Opening Self) → Posts (rule o) o.nodes is_job };
    // An owner puts the value back after jobs of its own.
    ghost ends: { (o : Opening Self) → Ends (rule o) o.nodes relates };
    // An owner runs a job that a node posted.
    ghost serves: { (o : Opening Self) → Serves (rule o) o.nodes relates };
    // A node takes the answer of its posted job.
    ghost collects: { (o : Opening Self) → Collects (rule o) o.nodes };

    ghost cuts: { (o : Opening Self) → Cuts (rule o) };

    ghost merges: { (o : Opening Self) → Merges (rule o) };
}
