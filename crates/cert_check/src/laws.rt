// What a verdict says.
ghost use Rattle.cert_check.specs.Laws.{VerdictLaw, ProofLaw};

/// A certificate has one verdict at most, and that is `Valid` exactly where the certificate is valid.
pub fn verdict_law()
    ensures { VerdictLaw }
{}

/// What a valid certificate says holds, whoever made it. With `Optimal` its grouping is feasible at the stated cost, and no feasible grouping
/// costs less. With `Within` no feasible grouping costs less than the stated bound. With `Hopeless` no grouping is feasible.
pub fn proof_law()
    ensures { ProofLaw }
{}
