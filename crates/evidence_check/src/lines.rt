// The numbers of lines.
ghost use Rattle.std.specs.Prelude.{◌≡◌, ◌≤◌};
ghost use Rattle.evidence_text.specs.Judgeable.{IsJudgeable, lines_before, router_lines};
ghost use Rattle.evidence_text.specs.Language.{most_bytes};
ghost use Rattle.evidence_check.specs.Firsts.{IsThere, failing_place};
ghost use Rattle.evidence_check.specs.Judging.{line_number};

use crate::failing::Failing;
use evidence_text::{Certificate, RouterPages};

// The lines of a router: its own, one of each page, and one of each row.
fn router_lines(router: &RouterPages) -> usize
    requires { router_lines router.now ≤ most_bytes }
    ensures { result ≡ router_lines router.now }
{
    let mut lines = 1;
    for page in router.pages.items() {
        lines += page.rows.items().len() + 1;
    }
    lines
}

// The lines before the first line of the answer.
fn lines_before(certificate: &Certificate) -> usize
    requires { lines_before certificate.now ≤ most_bytes }
    ensures { result ≡ lines_before certificate.now }
{
    let mut lines = 3 + certificate.links.items().len();
    for router in certificate.routers.items() {
        lines += router_lines(router);
    }
    lines
}

/// The number of a line of the answer, counted from 1. Costs a walk over routers and pages.
pub(crate) fn line_number(certificate: &Certificate, failing: Failing) -> u64
    requires judgeable { IsJudgeable certificate.now }
    requires there { IsThere certificate.now failing }
    ensures { result ≡ line_number certificate.now (failing_place failing) }
{
    let nodes = lines_before(certificate) + 1;
    let edges = nodes + certificate.nodes.items().len();
    let unknown = edges + certificate.edges.items().len();
    let clear = unknown + certificate.unknown.items().len();
    let end = clear + certificate.clear.items().len();
    let line = match failing {
        Failing::Node(place) => nodes + place,
        Failing::Edge(place) => edges + place,
        Failing::Unknown(place) => unknown + place,
        Failing::Clear(place) => clear + place,
        Failing::End => end,
    };
    line as u64
}
