// Why a call that adds or removes a device is refused before its first ask.
ghost use Rattle.std.specs.Prelude.{◌≡◌, option_map};
ghost use Rattle.core_rules.specs.Reasons.{refusal_for};
ghost use Rattle.domain_spec.specs.Tests.{first_refusal, has_free_slot, has_key, live_tests};
ghost use Rattle.domain_spec.specs.Types.call;
ghost use Rattle.domain_spec.specs.Types.{DeviceDef as Device};
ghost use Rattle.hotplug_core.specs.Faults.{boot_ended, fault_refusal, refused_before};

use crate::keys::slot_like;
use crate::slots::free_slot;
use core_rules::{Check, Reason, carries_ended, first_failing, inactive, invalid_if, state_in};
use virt_types::{DeviceDef, Domain, Live, RefusalCode, State};

/// Why a call on a device is refused before its first ask.
#[derive(Clone, Copy, Debug, PartialEq, Eq)]
pub enum Fault {
    /// For this reason, of which no text is kept.
    For(Reason),
    /// No device of the guest has the key of the call's.
    NoDevice,
}

fn has_key(live: &Option<Live>, device: &DeviceDef) -> bool
    ensures { result ≡ has_key live.now device.now }
{
    match live {
        None => false,
        Some(live) => slot_like(live, device).is_some(),
    }
}

fn has_free_slot(live: &Option<Live>) -> bool
    ensures { result ≡ has_free_slot live.now }
{
    match live {
        None => false,
        Some(live) => free_slot(live.slots.as_slice()).is_some(),
    }
}

// Where a boot was carried that has ended.
fn boot_ended(boot: Option<u64>) -> Option<Reason>
    ensures { option_map (λ r. refusal_for r) result ≡ boot_ended boot }
{
    match boot {
        None => None,
        Some(boot) => Some(Reason::GuestEnded(boot)),
    }
}

fn attach_test(domain: &Domain, device: &DeviceDef) -> Option<Reason>
    ensures { option_map (λ r. refusal_for r) result ≡ first_refusal (live_tests domain.now (call.Attach device.now)) }
{
    first_failing(&[
        inactive(domain),
        invalid_if(has_key(&domain.live, device), &domain.live),
        Check {
            fails: !has_free_slot(&domain.live),
            reason: Reason::Bare(RefusalCode::NoFreeSlot),
        },
    ])
}

/// Why attaching this device is refused before its first ask, if it is.
#[tactic(auto, unfolding(crate::specs::Faults::refused_before))]
pub fn attach_fault(state: &State, device: &DeviceDef, boot: Option<u64>) -> Option<Reason>
    ensures { option_map (λ r. refusal_for r) result ≡ refused_before state.now (call.Attach device.now) boot }
{
    if carries_ended(state, boot) {
        return boot_ended(boot);
    }
    match state {
        State::Vacant { .. } => Some(Reason::Bare(RefusalCode::NoDomain)),
        State::Held(domain) => attach_test(domain, device),
    }
}

fn detach_test(domain: &Domain, device: &DeviceDef) -> Option<Fault>
    ensures { option_map (fault_refusal device.now) result ≡ first_refusal (live_tests domain.now (call.Detach device.now)) }
{
    if domain.live.is_none() {
        Some(Fault::For(Reason::Invalid(state_in(&domain.live))))
    } else if !has_key(&domain.live, device) {
        Some(Fault::NoDevice)
    } else {
        None
    }
}

// A reason as a fault.
fn fault_for(reason: Option<Reason>) -> Option<Fault>
    ensures { (d : Device) → option_map (fault_refusal d) result ≡ option_map (λ r. refusal_for r) reason }
{
    match reason {
        None => None,
        Some(reason) => Some(Fault::For(reason)),
    }
}

/// Why detaching the device with the key of this one is refused before its first ask, if it is.
#[tactic(auto, unfolding(crate::specs::Faults::refused_before))]
pub fn detach_fault(state: &State, device: &DeviceDef, boot: Option<u64>) -> Option<Fault>
    ensures { option_map (fault_refusal device.now) result ≡ refused_before state.now (call.Detach device.now) boot }
{
    if carries_ended(state, boot) {
        return fault_for(boot_ended(boot));
    }
    match state {
        State::Vacant { .. } => Some(Fault::For(Reason::Bare(RefusalCode::NoDomain))),
        State::Held(domain) => detach_test(domain, device),
    }
}
