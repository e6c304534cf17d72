// One step of the shunter from bytes to bytes: an event record in, the actions that go out written.
ghost use Rattle.std.specs.Prelude.{◌≡◌, ◌+◌, ◌≤◌, length, take};
ghost use Rattle.std.proofs.lemmas.List.Edits.{sets};
ghost use Rattle.unit.specs.Forms.{most_actions};
ghost use Rattle.unit.specs.OnRecords.{action_room, action_size, bytes_of, written};
ghost use Rattle.shunter.specs.Shunting.{shunt, sent_buffer, sent_of};

use crate::answer::{Sent, nowhere};
use crate::state::Shunter;
use unit::answer::{Action, Actions};
use unit::bytes::{ACTION_ROOM, ACTION_SIZE};
use wire::refusal::Refusal;

// Writes an action's five bytes.
fn put(s: &mut [u8], at: usize, action: Action)
    requires { at + action_size ≤ length s.old }
    ensures { s.new ≡ sets s.old at (bytes_of action) }
{
    let partner = action.partner;
    s[at] = action.number;
    s[at + 1] = partner.kind;
    s[at + 2] = partner.high;
    s[at + 3] = partner.middle;
    s[at + 4] = partner.low;
}

// Writes the actions to the front of the buffer.
fn write(s: &mut [u8], actions: Actions)
    requires { (actions.count ≤ most_actions) × (action_room ≤ length s.old) }
    ensures { s.new ≡ written (take actions.count actions.items) s.old }
{
    for i in 0..actions.count {
        put(s, ACTION_SIZE * i, actions.items[i]);
    }
}

impl Shunter {
    // One step on an event record: refusals 10, 11, 1, 2, 1, 3, then 18, those of the event, 17, the first that applies.
    // An accepted step writes what goes out to the front of the buffer and no other byte; a refused one writes nothing.
    pub fn on_record(self, bytes: &[u8], actions: &mut [u8]) -> Sent
        ensures { (result ≡ sent_of (shunt self bytes.now (length actions.old)))
            × (actions.new ≡ sent_buffer self bytes.now actions.old) }
    {
        if actions.len() < ACTION_ROOM {
            return Sent {
                code: Refusal::NoRoom.number(),
                shunter: self,
                count: 0,
                standing: nowhere(),
            };
        }
        let shunted = self.apply(bytes);
        write(actions, shunted.actions);
        Sent {
            code: shunted.code,
            shunter: shunted.shunter,
            count: shunted.actions.count,
            standing: shunted.standing,
        }
    }
}
