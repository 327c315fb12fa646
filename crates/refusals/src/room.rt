// Room for the text of such a reply, and the replies that are written into it.
ghost use Rattle.std.specs.Prelude.{◌≡◌, ◌+◌, ◌++◌, ◌∷◌, ◌≤◌, length};
ghost use Rattle.std.specs.String.{string_bytes, string_capacity, string_len};
ghost use Rattle.domain_spec.specs.Excluded.{held_words};
ghost use Rattle.domain_spec.specs.Refusals.{refusal};
ghost use Rattle.domain_spec.specs.Types.reply;
ghost use Rattle.refusals.specs.Replies.{IsExcludedReply, no_memory_reply, spent_reply};
ghost use Rattle.virt_types.specs.Numbers.{job_word, op_word};

use itoa::Buffer;
use job_rules::JobRecord;
use std::alloc::Global;
use std::marker::Model;
use virt_types::{Job, NoMemory, OpKind, Refusal, RefusalCode, Reply, Text};

// Room for a number of 40 digits; two words and a blank between them are shorter.
const ROOM: usize = 40;

// How many tickets there are.
const TICKETS: u64 = 1 << 62;

/// Room for the longest text of a reply that leaves no Done. A reply that is written into it takes no
/// memory. Contracts see nothing of it: one is as good as another.
#[derive(Drop)]
pub struct ReplyRoom {
    text: String,
}

impl Model for ReplyRoom {
    ghost use Rattle.std.specs.Prelude.{◌≡◌, ◌≤◌, []};
    ghost use Rattle.std.specs.String.{string_bytes, string_capacity, string_len};

    ghost Value = { Unit {0} };

    ghost view = { λ _. tt };

    ghost invariant = { λ r. (string_bytes r.text ≡ []) × ((string_len r.text ≡ 0) × (40 ≤ string_capacity r.text)) };
}

// Puts a text after another, into room that is there.
fn put(text: &mut String, more: &str)
    requires { string_len text.old + length more.now ≤ string_capacity text.old }
    ensures bytes { string_bytes text.new ≡ string_bytes text.old ++ more.now }
    ensures len { string_len text.new ≡ string_len text.old + length more.now }
    ensures room { string_capacity text.old ≤ string_capacity text.new }
{
    match text.push_str(more) {
        Ok(()) => {}
        Err(_) => unreachable!(),
    }
}

// The word for a job, which is short.
fn job_word(job: Job) -> &'static str
    ensures word { result.now ≡ job_word job }
    ensures short { length result.now ≤ 9 }
{
    job.word()
}

// The word for an operation, which is short.
fn op_word(kind: OpKind) -> &'static str
    ensures word { result.now ≡ op_word kind }
    ensures short { length result.now ≤ 11 }
{
    kind.word()
}

// The reply with this code that keeps this text.
fn reply(code: RefusalCode, text: String) -> Reply
    ensures { result ≡ reply.No (refusal code (string_bytes text)) }
{
    Reply::No(Refusal {
        code,
        kept: Text::of(text),
    })
}

/// The reply of a call for which there was no memory.
pub fn no_memory(alloc: Global) -> Reply
    ensures { result ≡ no_memory_reply }
{
    reply(RefusalCode::NoMemory, String::new(alloc))
}

impl ReplyRoom {
    /// Room for the longest such text.
    pub fn new(alloc: Global) -> Result<ReplyRoom, NoMemory> {
        Ok(ReplyRoom {
            text: String::with_capacity(alloc, ROOM)?,
        })
    }

    // The reply that keeps this text, which fits.
    fn whole(self, code: RefusalCode, text: &str) -> Reply
        requires { length text.now ≤ 40 }
        ensures { result ≡ reply.No (refusal code text.now) }
    {
        let mut kept = self.text;
        put(&mut kept, text);
        reply(code, kept)
    }

    // The reply that keeps the words for a job and an operation.
    fn both(self, code: RefusalCode, job: Job, kind: OpKind) -> Reply
        ensures { result ≡ reply.No (refusal code (job_word job ++ 32 ∷ op_word kind)) }
    {
        let mut kept = self.text;
        put(&mut kept, job_word(job));
        put(&mut kept, " ");
        put(&mut kept, op_word(kind));
        reply(code, kept)
    }

    // The reply that says what is held.
    fn held(self, code: RefusalCode, held: &JobRecord) -> Reply
        ensures { result ≡ reply.No (refusal code (held_words held.now.active held.now.op)) }
    {
        match (held.active, held.op) {
            (None, None) => self.whole(code, ""),
            (Some((job, _)), None) => self.whole(code, job_word(job)),
            (None, Some(op)) => self.whole(code, op_word(op.kind)),
            (Some((job, _)), Some(op)) => self.both(code, job, op.kind),
        }
    }

    /// The reply of a call whose job was excluded by what is held.
    pub fn excluded(self, code: RefusalCode, held: &JobRecord) -> Reply
        ensures { IsExcludedReply code held.now.active held.now.op result }
    {
        match code {
            RefusalCode::TooManyWaiting => self.whole(code, "32"),
            _ => self.held(code, held),
        }
    }

    /// The reply of a call for which no ticket is left.
    pub fn spent(self) -> Reply
        ensures { result ≡ spent_reply }
    {
        let mut buffer = Buffer::new();
        self.whole(RefusalCode::CountSpent, buffer.format(TICKETS))
    }

    /// The reply of a call for which there was no memory.
    pub fn no_memory(self) -> Reply
        ensures { result ≡ no_memory_reply }
    {
        self.whole(RefusalCode::NoMemory, "")
    }
}
