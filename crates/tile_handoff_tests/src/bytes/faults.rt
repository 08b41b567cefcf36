//! The numbers and the texts of faults.
use byte_streams::Fault;
use std::alloc::{AllocError, Global};

fn number_of(number: u8) -> Option<u8> {
    Fault::of(number).map(|fault| fault.number())
}

fn is_shown(alloc: Global, fault: Fault, text: &str) -> Result<bool, AllocError> {
    Ok(format!(in alloc; "{fault}")?.as_str() == text)
}

#[test]
fn a_fault_has_a_number_and_a_text(rt: HostRuntime) {
    for number in 1..=32u8 {
        assert!(rt; number_of(number) == Some(number));
    }
    assert!(rt; Fault::of(0).is_none());
    assert!(rt; Fault::of(33).is_none());
    assert!(rt; Fault::of(255).is_none());
    assert!(rt; Fault::of(24) == Some(Fault::Read));
    assert!(rt; is_shown(rt.alloc(), Fault::Read, "the tile could not be read") == Ok(true));
}
