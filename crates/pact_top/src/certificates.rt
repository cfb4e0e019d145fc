//! From the bytes of a certificate to the plan that it leads to.

ghost use Rattle.pact_operators.specs.Programs.{NamesDiffer};
ghost use Rattle.pact_load.specs.Answers.{Decides, Says};
ghost use Rattle.pact_top.specs.Refusal.{CertificateRefused, CertificateUnread, IsRechecked};
ghost use Rattle.pact_top.specs.Work as work;
ghost use Rattle.swap_certificate.specs.FaultTexts as fault_texts;

use pact_load::Refusal;
use pact_operators::{Plan, Program};
use pact_record::{Bytes, OutOfMemory};
use std::alloc::Global;
use swap_certificate::{
    CertFault, Certificate, NotCertificate, fault_text, not_certificate_text, read_certificate,
    recheck,
};

/// The most bytes that a certificate file may have.
pub const CERTIFICATE_LIMIT: usize = 1048576;

// The refusal of a text that isn't a certificate.
fn no_certificate(alloc: Global) -> Refusal
    ensures { Says 9 fault_texts.not_certificate_text result }
{
    match Bytes::from_slice(alloc, not_certificate_text()) {
        Ok(line) => Refusal::Decided { status: 9, line },
        Err(OutOfMemory) => Refusal::OutOfMemory,
    }
}

fn certificate_unread(alloc: Global, not: NotCertificate) -> Refusal
    ensures { CertificateUnread not result }
{
    match not {
        NotCertificate::Shape => no_certificate(alloc),
        NotCertificate::Memory => Refusal::OutOfMemory,
    }
}

/// The certificate that a text spells.
pub fn certificate_in(alloc: Global, text: &[u8]) -> Result<Certificate, Refusal>
    ensures { Decides (work.certificate text.now) result }
{
    match read_certificate(alloc, text) {
        Ok(certificate) => Ok(certificate),
        Err(not) => Err(certificate_unread(alloc, not)),
    }
}

// The refusal of a certificate with this fault.
fn bad_certificate(alloc: Global, certificate: &Certificate, fault: &CertFault) -> Refusal
    ensures { Says 9 (fault_texts.fault_text certificate.now fault.now) result }
{
    match fault_text(alloc, certificate, fault) {
        Ok(line) => Refusal::Decided { status: 9, line },
        Err(OutOfMemory) => Refusal::OutOfMemory,
    }
}

fn certificate_refused(alloc: Global, certificate: &Certificate, fault: CertFault) -> Refusal
    ensures { CertificateRefused certificate.now fault result }
{
    match fault {
        CertFault::Memory => Refusal::OutOfMemory,
        fault => bad_certificate(alloc, certificate, &fault),
    }
}

/// The plan that a certificate leads to.
pub fn rechecked(
    alloc: Global,
    program: &Program,
    certificate: &Certificate,
) -> Result<Plan, Refusal>
    requires names { NamesDiffer program.now.ops }
    ensures { IsRechecked program.now certificate.now result }
{
    match recheck(alloc, program, certificate) {
        Ok(plan) => Ok(plan),
        Err(fault) => Err(certificate_refused(alloc, certificate, fault)),
    }
}
