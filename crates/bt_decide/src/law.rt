//! Laws of decisions, as contracts of functions that do nothing.
ghost use Rattle.bt_decide.specs.Certified.{YesIsCertificate, SameIsCertificate};

/// What is printed of the log of a yes is a certificate, which `bt_cert` accepts, where the log has fewer
/// than 10 ^ 17 steps.
pub fn yes_is_certificate()
    ensures { YesIsCertificate }
{}

/// What is printed of the log of a yes that two networks behave the same is a certificate, which `bt_cert` accepts,
/// where the log has fewer than 10 ^ 17 steps.
pub fn same_is_certificate()
    ensures { SameIsCertificate }
{}
