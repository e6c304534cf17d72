// One step of the engine of sets from bytes to bytes: an event record in, its actions written.
ghost use Rattle.std.specs.Prelude.{◌≡◌, ◌+◌, ◌≤◌, length, take};
ghost use Rattle.std.proofs.lemmas.List.Edits.{sets};
ghost use Rattle.unit.specs.Forms.{most_actions};
ghost use Rattle.unit.specs.OnRecords.{action_room, action_size, bytes_of, written};
ghost use Rattle.sets.specs.OnSets.{apply_sets, on_sets, set_listed, set_buffer, set_stepped};

use crate::answer::{SetAnswer, SetStepped};
use crate::state::SetState;
use crate::step::ReadyState;
use record::read::read;
use unit::answer::{Action, Actions};
use unit::bytes::{ACTION_ROOM, ACTION_SIZE};
use wire::refusal::Refusal;

// Writes an action's five bytes.
fn put(s: &mut [u8], at: usize, action: Action)
    requires { at + action_size ≤ length s.old }
    ensures { s.new ≡ sets s.old at (bytes_of action) }
{
    let partner = action.partner;
    s[at] = action.number;
    s[at + 1] = partner.kind;
    s[at + 2] = partner.high;
    s[at + 3] = partner.middle;
    s[at + 4] = partner.low;
}

// Writes the actions to the front of the buffer.
fn write(s: &mut [u8], actions: Actions)
    requires { (actions.count ≤ most_actions) × (action_room ≤ length s.old) }
    ensures { s.new ≡ written (take actions.count actions.items) s.old }
{
    for (i, action) in actions.items[..actions.count].iter().enumerate() {
        put(s, ACTION_SIZE * i, *action);
    }
}

impl SetState {
    // One step on an event record, its actions answered: refusals 11, 1, 2, 1, 3, then those of the event, the first that applies.
    pub fn apply(self, bytes: &[u8]) -> SetAnswer
        ensures { result ≡ set_listed (apply_sets self bytes.now) }
    {
        if self.is_sound() {
            match read(bytes) {
                Ok(event) => ReadyState { state: self }.step(event),
                Err(refusal) => SetAnswer::refused(refusal, 0, self),
            }
        } else {
            SetAnswer::refused(Refusal::NotSound, 0, self)
        }
    }

    // One step on an event record: refusals 10, 11, 1, 2, 1, 3, then those of the event, the first that applies.
    // An accepted step writes its actions to the front of the buffer and no other byte; a refused one writes nothing.
    pub fn on_record(self, bytes: &[u8], actions: &mut [u8]) -> SetStepped
        ensures { (result ≡ set_stepped (on_sets self bytes.now (length actions.old)))
            × (actions.new ≡ set_buffer self bytes.now actions.old) }
    {
        if actions.len() < ACTION_ROOM {
            return SetStepped {
                code: Refusal::NoRoom.number(),
                state: self,
                count: 0,
                phase: 0,
            };
        }
        let answer = self.apply(bytes);
        write(actions, answer.actions);
        SetStepped {
            code: answer.code,
            state: answer.state,
            count: answer.actions.count,
            phase: answer.phase,
        }
    }
}
