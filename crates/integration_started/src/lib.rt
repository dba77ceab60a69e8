// Started fields: definitions and theorems, and the form of the answer. The code that starts a field stands above.
#![tactic(auto)]

use integration_field::IntegrationField;

// What starting a field answers: its number, and the started field.
#[repr(C)]
#[derive(Clone, Copy)]
pub struct InitAnswer {
    pub number: u8,
    pub field: IntegrationField,
}
