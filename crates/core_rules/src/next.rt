// What is next for a call, or for a phase of an operation.
ghost use Rattle.std.specs.Prelude.{◌≡◌};
ghost use Rattle.core_rules.specs.Next.{next_if};

use virt_types::Ask;

/// What is next for a call, or for a phase of an operation.
#[derive(Drop)]
pub enum Next {
    /// This is to be asked.
    Ask(Ask),
    /// Nothing is to be asked any more: it can be finished.
    Finish,
}

impl Next {
    /// What is next where this ask, or none, is at its place.
    pub fn of(ask: Option<Ask>) -> Next
        ensures { result ≡ next_if ask }
    {
        match ask {
            None => Next::Finish,
            Some(ask) => Next::Ask(ask),
        }
    }
}
