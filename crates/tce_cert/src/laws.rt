// Laws of certificates and of their faults, which hold without any code.
ghost use Rattle.tce_cert.specs.Laws as law;

/// A text has at most one first fault.
pub fn first_faults_are_alone()
    ensures { law.FirstFaultsAreAlone }
{}

/// A certificate has no fault.
pub fn certificates_have_no_fault()
    ensures { law.CertificatesHaveNoFault }
{}

/// Plans that fit a tree and have one certificate are one plan.
pub fn plans_are_their_certificates()
    ensures { law.PlansAreTheirCertificates }
{}
