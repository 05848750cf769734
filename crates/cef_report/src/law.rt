ghost use Rattle.cef_report.specs.Certificates.{CertificateIsSound};

/// Potentials below every constitution and the rule on the gap show that no rival is lower by more than the gap.
pub fn certificate_is_sound()
    ensures { CertificateIsSound }
{}
