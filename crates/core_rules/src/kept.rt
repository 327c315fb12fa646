// Room for the text that a refusal keeps, and the refusals that are written into it.
ghost use Rattle.std.specs.Prelude.{◌≡◌, ◌+◌, ◌++◌, ◌≤◌, decimal, length};
ghost use Rattle.std.specs.String.{string_bytes, string_capacity, string_len};
ghost use Rattle.domain_spec.specs.Refusals.{bad_kick, bare, boots_spent, failed, guest_ended, invalid, list_full, out_of_range, refusal, stalled};
ghost use Rattle.domain_spec.specs.Types.code;
ghost use Rattle.virt_types.specs.Refusal.{kept_cut};
ghost use Rattle.virt_types.specs.Numbers.{state_word};
ghost use Rattle.core_rules.specs.Reasons.{refusal_for};

use crate::reading::state_in;
use crate::reason::Reason;
use itoa::Buffer;
use std::alloc::Global;
use std::marker::Model;
use virt_types::{
    DomainState, Live, MOST_KEPT_BYTES, Name, NoMemory, Refusal, RefusalCode, Text, kept_length,
};

/// Room for the longest text that a refusal keeps. A refusal that is written into it takes no memory.
/// Contracts see nothing of it: one is as good as another.
#[derive(Drop)]
pub struct KeptText {
    text: String,
}

impl Model for KeptText {
    ghost use Rattle.std.specs.Prelude.{◌≡◌, ◌≤◌, []};
    ghost use Rattle.std.specs.String.{string_bytes, string_capacity, string_len};

    ghost Value = { Unit {0} };

    ghost view = { λ _. tt };

    ghost invariant = { λ k. (string_bytes k.text ≡ []) × ((string_len k.text ≡ 0) × (1024 ≤ string_capacity k.text)) };
}

// Puts a text after another, into room that is there.
fn put(text: &mut String, more: &str)
    requires { string_len text.old + length more.now ≤ string_capacity text.old }
    ensures bytes { string_bytes text.new ≡ string_bytes text.old ++ more.now }
    ensures len { string_len text.new ≡ string_len text.old + length more.now }
    ensures room { string_capacity text.old ≤ string_capacity text.new }
{
    match text.push_str(more) {
        Ok(()) => {}
        Err(_) => unreachable!(),
    }
}

// Puts a number after a text, into room that is there.
fn put_number(text: &mut String, n: u64)
    requires { string_len text.old + 40 ≤ string_capacity text.old }
    ensures bytes { string_bytes text.new ≡ string_bytes text.old ++ decimal n }
    ensures len { string_len text.new ≤ string_len text.old + 40 }
    ensures room { string_capacity text.old ≤ string_capacity text.new }
{
    let mut buffer = Buffer::new();
    put(text, buffer.format(n));
}

impl KeptText {
    /// Room for 1,024 bytes.
    pub fn new(alloc: Global) -> Result<KeptText, NoMemory> {
        Ok(KeptText {
            text: String::with_capacity(alloc, MOST_KEPT_BYTES)?,
        })
    }

    /// The refusal for this reason.
    pub fn refusal(self, reason: Reason) -> Refusal
        ensures { result ≡ refusal_for reason }
    {
        match reason {
            Reason::Bare(code) => self.bare(code),
            Reason::Invalid(state) => self.in_state(state),
            Reason::OutOfRange { n, low, high } => self.out_of_range(n, low, high),
            Reason::BadKick { n, is_low } => self.bad_kick(n, is_low),
            Reason::Failed(class) => self.failed(class),
            Reason::GuestEnded(boot) => self.guest_ended(boot),
            Reason::ListFull(most) => self.list_full(most),
            Reason::Stalled(rest) => self.stalled(rest),
            Reason::BootsSpent => self.boots_spent(),
        }
    }

    /// A refusal that keeps nothing.
    pub fn bare(self, code: RefusalCode) -> Refusal
        ensures { result ≡ bare code }
    {
        Refusal {
            code,
            kept: Text::of(self.text),
        }
    }

    /// A refusal that keeps this text, which fits.
    pub fn whole(self, code: RefusalCode, text: &str) -> Refusal
        requires { length text.now ≤ 1024 }
        ensures { result ≡ refusal code text.now }
    {
        let mut kept = self.text;
        put(&mut kept, text);
        Refusal {
            code,
            kept: Text::of(kept),
        }
    }

    /// A refusal that keeps this name.
    pub fn named(self, code: RefusalCode, name: &Name) -> Refusal
        ensures { result ≡ refusal code name.now }
    {
        self.whole(code, name.as_str())
    }

    /// A refusal that keeps of this text the longest front of whole characters within 1,024 bytes.
    #[tactic(auto, unfolding(virt_types::specs::Refusal::kept_cut))]
    pub fn cut(self, code: RefusalCode, text: &str) -> Refusal
        ensures { result ≡ refusal code (kept_cut text.now) }
    {
        self.whole(code, &text[..kept_length(text)])
    }

    fn in_state(self, state: DomainState) -> Refusal
        ensures { result ≡ refusal code.OperationInvalid (state_word state) }
    {
        self.whole(RefusalCode::OperationInvalid, state.word())
    }

    /// The domain's state does not allow it.
    pub fn invalid(self, live: &Option<Live>) -> Refusal
        ensures { result ≡ invalid live.now }
    {
        self.in_state(state_in(live))
    }

    // A word and a number.
    fn counted(self, code: RefusalCode, word: &str, n: u64) -> Refusal
        requires { length word.now ≤ 40 }
        ensures { result ≡ refusal code (word.now ++ decimal n) }
    {
        let mut kept = self.text;
        put(&mut kept, word);
        put_number(&mut kept, n);
        Refusal {
            code,
            kept: Text::of(kept),
        }
    }

    /// A number is outside its range.
    pub fn out_of_range(self, n: u64, low: u64, high: u64) -> Refusal
        ensures { result ≡ out_of_range n low high }
    {
        let mut kept = self.text;
        put_number(&mut kept, n);
        put(&mut kept, " ");
        put_number(&mut kept, if n < low { low } else { high });
        Refusal {
            code: RefusalCode::InvalidArgument,
            kept: Text::of(kept),
        }
    }

    /// A number 1 to 5 is none of these.
    pub fn bad_kick(self, n: i32, is_low: bool) -> Refusal
        ensures { result ≡ bad_kick n is_low }
    {
        let mut buffer = Buffer::new();
        let mut kept = self.text;
        put(&mut kept, buffer.format(n));
        put(&mut kept, " ");
        put_number(&mut kept, if is_low { 1 } else { 5 });
        Refusal {
            code: RefusalCode::InvalidArgument,
            kept: Text::of(kept),
        }
    }

    /// The guest or the desk refused, with this class.
    pub fn failed(self, class: u32) -> Refusal
        ensures { result ≡ failed class }
    {
        self.counted(RefusalCode::OperationFailed, "class ", u64::from(class))
    }

    /// The boot that was carried is not live.
    pub fn guest_ended(self, boot: u64) -> Refusal
        ensures { result ≡ guest_ended boot }
    {
        self.counted(RefusalCode::GuestEnded, "boot ", boot)
    }

    /// A list is at its limit.
    pub fn list_full(self, most: u64) -> Refusal
        ensures { result ≡ list_full most }
    {
        self.counted(RefusalCode::ListFull, "", most)
    }

    /// The copy made no headway.
    pub fn stalled(self, rest: u64) -> Refusal
        ensures { result ≡ stalled rest }
    {
        self.counted(RefusalCode::Stalled, "", rest)
    }

    /// The number of boots has come to its end.
    pub fn boots_spent(self) -> Refusal
        ensures { result ≡ boots_spent }
    {
        self.counted(RefusalCode::CountSpent, "", 1 << 62)
    }
}
