// The door for C: `door::door_reply` under its C name, with the same promise.
#![tactic(auto)]

ghost use Rattle.door.specs.Contract.{Answered};

// Judges a request and composes it. Under the room of the longest reply nothing is written and 0 is answered; otherwise the reply
// is written to the front of `reply` and its byte count is answered. The two slices never overlap.
#[unsafe(no_mangle)]
pub extern "C" fn door_reply(request: &[u8], reply: &mut [u8]) -> usize
    ensures { Answered request.now reply.old result reply.new }
{
    door::door_reply(request, reply)
}
