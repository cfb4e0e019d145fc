//! Certificates: the legal exchanges that lead from the plan as written to another plan, in a form that can be checked
//! on its own.
//!
//! `certificate` writes down exchanges with the sets found for their operators, and the plan that they lead to.
//! `recheck` trusts none of it: it follows the steps from the plan as written, finds the sets again, checks that each
//! exchange is legal, and compares. `write_certificate` and `read_certificate` convert a certificate to JSON text and
//! back. `certificate_line` writes it as one line, which is read as the same certificate. `fault_text` says why a
//! certificate is refused. `specs/Checks` defines the result of a certificate, `specs/Shape` its JSON value, and
//! `specs/FaultTexts` the lines for a refusal.
#![tactic(auto)]

pub mod certificates;
mod fault_texts;
mod making;
mod names;
mod reading;
mod rechecking;
mod writing;

pub use certificates::{CertFault, Certificate, NotCertificate, Step, Steps};
pub use fault_texts::{fault_text, not_certificate_text};
pub use making::certificate;
pub use reading::read_certificate;
pub use rechecking::recheck;
pub use writing::{certificate_line, write_certificate};
