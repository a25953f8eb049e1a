// Places where facts aren't kept, and their order.
ghost use Rattle.std.specs.Prelude.{◌≡◌};
ghost use Rattle.bound_checker.specs.Checked as meaning;

use flow_graph::Edge;

// An edge, by its units, and a register whose fact it doesn't keep.
#[derive(Clone, Copy, Debug, PartialEq, Eq)]
pub(crate) struct Lost {
    pub(crate) from: u32,
    pub(crate) to: u32,
    pub(crate) register: u8,
}

fn is_earlier(s: Lost, t: Lost) -> bool
    ensures { result ≡ meaning.is_earlier s t }
{
    s.from < t.from
        || (s.from == t.from && (s.to < t.to || (s.to == t.to && s.register < t.register)))
}

pub(crate) fn earlier_of(best: Option<Lost>, t: Lost) -> Lost
    ensures { result ≡ meaning.earlier_of best t }
{
    match best {
        None => t,
        Some(s) => { if is_earlier(t, s) { t } else { s } }
    }
}

pub(crate) fn better(best: Option<Lost>, e: Edge, lost: Option<u8>) -> Option<Lost>
    ensures { result ≡ meaning.better best e lost }
{
    match lost {
        None => best,
        Some(register) => Some(earlier_of(
            best,
            Lost {
                from: e.from,
                to: e.to,
                register,
            },
        )),
    }
}
