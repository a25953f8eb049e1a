// The predictor that the words choose.
ghost use Rattle.std.specs.Prelude.{◌≡◌};
ghost use Rattle.visa_cli.specs.Run.{predictor_of as predictor_of_lem};

use command_line::PredictorKind;
use predictors::{Builtin, PredictorKind as Kind};

/// The built-in predictor of a kind, which has learnt nothing. Takes no memory.
pub fn predictor_of(kind: PredictorKind) -> Builtin
    ensures { result ≡ predictor_of_lem kind }
{
    match kind {
        PredictorKind::Static => Builtin::make(Kind::Static),
        PredictorKind::Bimodal => Builtin::make(Kind::Bimodal),
        PredictorKind::Gshare => Builtin::make(Kind::Gshare),
    }
}
