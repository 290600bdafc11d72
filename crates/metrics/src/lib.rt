// The created and terminated counts of metrics.rs, as numbers that go in by value and come back changed.
#![tactic(auto)]

ghost use Rattle.std.specs.Prelude.{◌≡◌};
ghost use Rattle.metrics.specs.Metrics.{counted, none_counted, created_counted, terminated_counted};

// How many dialogs were put into a store, and how many were removed.
#[derive(Clone, Copy)]
pub struct DialogMetrics {
    pub created: u64,
    pub terminated: u64,
}

impl DialogMetrics {
    // Both counts at 0.
    pub fn new() -> DialogMetrics
        ensures { result ≡ none_counted }
    {
        DialogMetrics {
            created: 0,
            terminated: 0,
        }
    }

    // One more created.
    // Kept (2): these two differ in the field alone, which no parameter can name.
    pub fn record_created(self) -> DialogMetrics
        ensures { result ≡ created_counted self }
    {
        DialogMetrics {
            created: count_one(self.created),
            ..self
        }
    }

    // One more terminated.
    // Kept (2): these two differ in the field alone, which no parameter can name.
    pub fn record_terminated(self) -> DialogMetrics
        ensures { result ≡ terminated_counted self }
    {
        DialogMetrics {
            terminated: count_one(self.terminated),
            ..self
        }
    }
}

// The count with one more, or the same where it is at its largest.
pub fn count_one(count: u64) -> u64
    ensures { result ≡ counted count }
{
    count.saturating_add(1)
}
