// Room for a guest's state.
ghost use Rattle.std.specs.Prelude.{◌≡◌, option_map};
ghost use Rattle.domain_spec.specs.PhaseAsks.{copied_bytes};

use std::alloc::Global;
use std::marker::Model;
use virt_types::{AnswerValue, Bytes, MOST_STATE_BYTES, NoMemory};

/// Room for a guest's state of 4,096 bytes. A state that is put into it takes no memory. Contracts
/// see nothing of it: one is as good as another.
#[derive(Drop)]
pub struct StateRoom {
    bytes: Vec<u8>,
}

impl Model for StateRoom {
    ghost use Rattle.std.specs.Prelude.{◌≡◌, ◌≤◌, []};
    ghost use Rattle.std.specs.Vec.{vec_capacity};

    ghost Value = { Unit {0} };

    ghost view = { λ _. tt };

    ghost invariant = { λ s. (s.bytes.items ≡ []) × (4096 ≤ vec_capacity s.bytes) };
}

impl StateRoom {
    /// Room for 4,096 bytes.
    pub fn new(alloc: Global) -> Result<StateRoom, NoMemory> {
        Ok(StateRoom {
            bytes: Vec::with_capacity(alloc, MOST_STATE_BYTES)?,
        })
    }

    /// The state that a copy has handed over. Bytes above 4,096, or none, are no state.
    pub fn hold(self, value: Option<&AnswerValue>) -> Bytes
        ensures { result ≡ copied_bytes (option_map (λ v. v.now) value.entry) }
    {
        let mut state = self.bytes;
        if let Some(AnswerValue::Bytes(bytes)) = value
            && bytes.len() <= MOST_STATE_BYTES
        {
            match state.extend_from_slice(bytes.as_slice()) {
                Ok(()) => {}
                Err(_) => unreachable!(),
            }
        }
        Bytes::of(state)
    }
}
