// What holds of all texts that are judged.
ghost use Rattle.check_steps.specs.Laws.{CertificateLines, DrawnLines, OneVerdict, ValidVerdict, ValidHolds};

/// No line refuses the text of a certificate, and one line at most refuses another text.
pub fn certificate_lines_law()
    ensures { CertificateLines }
{}

/// No line refuses the text of a drawn map, and one line at most refuses another text.
pub fn drawn_lines_law()
    ensures { DrawnLines }
{}

/// The same texts have one verdict at most, and one line that says it.
pub fn one_verdict_law()
    ensures { OneVerdict }
{}

/// The verdict is `Valid` exactly where the certificate is valid.
pub fn valid_verdict_law()
    ensures { ValidVerdict }
{}

/// What a valid certificate states holds, whoever made it: with `optimal` its grouping is feasible at the stated cost and no feasible grouping
/// costs less, with `within` none costs less than the stated bound, and with `none` no grouping is feasible.
pub fn valid_holds_law()
    ensures { ValidHolds }
{}
