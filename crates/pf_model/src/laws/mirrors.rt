//! The mirror of a network, by which a falling network is a rising one seen from the other end.

ghost use Rattle.pf_model.specs.MirrorLaws.{MirrorTwice, MirrorIsMonotone, MirrorInterval, MirrorCapacities, MirrorCuts, MirrorConstants, MirrorSlopes, MirrorPoint, MirrorCurve, MirrorCertificate, PointOfMirror, CurveOfMirror, CertificateOfMirror};

/// The mirror of a monotone network is monotone, its sense is the other one, and its own mirror is the network again.
pub fn mirror_is_monotone()
    ensures monotone { MirrorIsMonotone }
    ensures interval { MirrorInterval }
    ensures twice { MirrorTwice }
{}

/// At the negated parameter the mirror has the same capacities. The same sides are its cuts, and the line `(A, B)` of a
/// side becomes `(A, -B)`.
pub fn mirror_keeps_cuts()
    ensures capacities { MirrorCapacities }
    ensures cuts { MirrorCuts }
    ensures constants { MirrorConstants }
    ensures slopes { MirrorSlopes }
{}

/// The mirror's curve is the network's turned round: points negated and in reverse order, cuts and flows in reverse order.
pub fn mirror_turns_curves()
    ensures point { MirrorPoint }
    ensures curve { MirrorCurve }
    ensures certificate { MirrorCertificate }
{}

/// What is a point, a curve or a certificate of the mirror is one of the network, turned round.
pub fn curves_of_mirror()
    ensures point { PointOfMirror }
    ensures curve { CurveOfMirror }
    ensures certificate { CertificateOfMirror }
{}
