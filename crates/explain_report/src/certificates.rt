//! A certificate, checked as `pact check` checks it.

ghost use Rattle.pact_operators.specs.Programs.{NamesDiffer};
ghost use Rattle.pact_load.specs.Answers.{Decides, Says};
ghost use Rattle.explain_report.specs.Certificates.{IsFaultRefusal, IsFollowed, IsTextRefusal};
ghost use Rattle.explain_report.specs.Certificates as checks;
ghost use Rattle.swap_certificate.specs.FaultTexts as texts;

use pact_load::Refusal;
use pact_operators::{Plan, Program};
use pact_record::{Bytes, OutOfMemory};
use std::alloc::Global;
use swap_certificate::{
    CertFault, Certificate, NotCertificate, fault_text, not_certificate_text, read_certificate,
    recheck,
};

// The refusal of a text that isn't a certificate.
fn no_certificate(alloc: Global) -> Refusal
    ensures { Says 9 texts.not_certificate_text result }
{
    match Bytes::from_slice(alloc, not_certificate_text()) {
        Ok(line) => Refusal::Decided { status: 9, line },
        Err(OutOfMemory) => Refusal::OutOfMemory,
    }
}

fn text_refusal(alloc: Global, not: NotCertificate) -> Refusal
    ensures { IsTextRefusal not result }
{
    match not {
        NotCertificate::Shape => no_certificate(alloc),
        NotCertificate::Memory => Refusal::OutOfMemory,
    }
}

fn with_fault(alloc: Global, certificate: &Certificate, fault: &CertFault) -> Refusal
    ensures { Says 9 (texts.fault_text certificate.now fault.now) result }
{
    match fault_text(alloc, certificate, fault) {
        Ok(line) => Refusal::Decided { status: 9, line },
        Err(OutOfMemory) => Refusal::OutOfMemory,
    }
}

// The refusal of a certificate with this fault.
fn fault_refusal(alloc: Global, certificate: &Certificate, fault: CertFault) -> Refusal
    ensures { IsFaultRefusal certificate.now fault result }
{
    match fault {
        CertFault::Memory => Refusal::OutOfMemory,
        fault => with_fault(alloc, certificate, &fault),
    }
}

fn follow(alloc: Global, program: &Program, certificate: &Certificate) -> Result<Plan, Refusal>
    requires names { NamesDiffer program.now.ops }
    ensures { IsFollowed program.now certificate.now result }
{
    match recheck(alloc, program, certificate) {
        Ok(plan) => Ok(plan),
        Err(fault) => Err(fault_refusal(alloc, certificate, fault)),
    }
}

/// The plan that the certificate in a text leads to.
pub fn followed(alloc: Global, program: &Program, text: &[u8]) -> Result<Plan, Refusal>
    requires names { NamesDiffer program.now.ops }
    ensures { Decides (checks.followed program.now text.now) result }
{
    match read_certificate(alloc, text) {
        Ok(certificate) => follow(alloc, program, &certificate),
        Err(not) => Err(text_refusal(alloc, not)),
    }
}
