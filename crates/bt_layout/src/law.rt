//! Laws of layouts and of least grids, as the contracts of functions that do nothing.
ghost use Rattle.bt_layout.specs.Laws.{UnmetHasNoLayout, RefutedHasNoLayout, NowhereIsCertificate, LaidIsReadBack};
ghost use Rattle.bt_layout.specs.Smallest.{PassedHasNoLayout};

/// Where nothing meets the placement formula of a request, no parts lay the request.
pub fn unmet_has_no_layout()
    ensures { UnmetHasNoLayout }
{}

/// Where a log refutes the placement formula of a request, whoever wrote it, no parts lay the request.
pub fn refuted_has_no_layout()
    ensures { RefutedHasNoLayout }
{}

/// What is printed of the log of a search that found nothing is a certificate, which `bt_cert` accepts,
/// where the log has fewer than 10 ^ 17 steps.
pub fn nowhere_is_certificate()
    ensures { NowhereIsCertificate }
{}

/// What is written of parts that lay a request, as a blueprint, is read back as these parts with what their splitters
/// prefer, where they are no more than a blueprint may have.
pub fn laid_is_read_back()
    ensures { LaidIsReadBack }
{}

/// No parts lay the request on a grid before the one that `smallest` names, or on any where it names none, but for the
/// grids before `first`, which it passes by.
pub fn passed_has_no_layout()
    ensures { PassedHasNoLayout }
{}
