//! The laws of the definitions: each is the contract of a function that does nothing.

ghost use Rattle.batch_cli.specs.Laws.{MessagesAreWhole, MessagesAreBegun, OutputsTellTheTruth};
ghost use Rattle.batch_cli.specs.Laws.{SolvedOutputsTellTheTruth, CertificatesAnswerTheFirst};
ghost use Rattle.batch_cli.specs.Laws.{AcceptedInputsAreTrue, DefaultSetupsAreKorfs};
ghost use Rattle.batch_cli.specs.Laws.{OptionsArePrinted, RunsWithoutArgumentsAreTrue};
ghost use Rattle.batch_cli.specs.Laws.{BegunOutputsTellTheTruth, ListsAreWritten, TextsAreWritten};
ghost use Rattle.batch_cli.specs.Laws.{RefusedInputsAreFaulty, DrawnInputsAreCertificates};
ghost use Rattle.batch_cli.specs.Laws.{UndrawnInputsAreMistaken, UpgradesAreSpelled};
ghost use Rattle.batch_cli.specs.Laws.{ReplaysAreAnswered, FiguresAreTaken};
ghost use Rattle.batch_cli.specs.Laws.{SolvedBeginningsTellTheTruth, EndingsAreSeen};
ghost use Rattle.batch_cli.specs.Laws.{SolvedStatusesTell, CertifiedStatusesTell};
ghost use Rattle.batch_cli.specs.Laws.{WellEndedRunsAreFlushed};

use byte_streams::Sink;
use setup_runs::Watch;

/// To a stream that has not failed since, the message is written whole.
pub fn messages_are_whole()
    ensures { MessagesAreWhole }
{}

/// Whatever becomes of the stream, what is written there is a beginning of the message.
#[tactic(auto, using(crate::proofs::LawLemmas::begun))]
pub fn messages_are_begun()
    ensures { MessagesAreBegun }
{}

/// Where the input is known and the output was empty, what the program leaves there with the status
/// 0 or 1 tells the truth of all of the input's lines.
#[tactic(auto, using(crate::proofs::LawLemmas::outputs))]
pub fn outputs_tell_the_truth()
    ensures { OutputsTellTheTruth }
{}

/// So it is where options are given: all lines are answered, or the first board with a certificate.
/// Whatever the status, what was written of reports begins what tells the truth. Where options ask
/// for figures, each report has those of its board's run, which the watch took with its id.
pub fn asked_outputs_tell_the_truth<W: Watch>(watch: &W)
    ensures solved { SolvedOutputsTellTheTruth }
    ensures begun { SolvedBeginningsTellTheTruth }
    ensures certified { CertificatesAnswerTheFirst }
    ensures figures { FiguresAreTaken (λ id stats. W.has_taken watch.now id stats) }
{
    let _ = watch;
}

/// A known input that is accepted states a cost that no plan undercuts, and this is reported.
#[tactic(auto, using(crate::proofs::LawLemmas::accepted_inputs))]
pub fn accepted_inputs_are_true()
    ensures { AcceptedInputsAreTrue }
{}

/// A known input that is refused has a fault, or claims what is not proved, and this is reported.
#[tactic(auto, using(crate::proofs::LawLemmas::refused_inputs))]
pub fn refused_inputs_are_faulty()
    ensures { RefusedInputsAreFaulty }
{}

/// A run without arguments is true, or memory was refused before anything was read or written, with
/// the status 4. What it leaves of an output begins what tells the truth, whatever the status.
#[tactic(auto, using(crate::proofs::LawLemmas::without_arguments, crate::proofs::LawLemmas::begun_outputs))]
pub fn runs_without_arguments_are_true()
    ensures run { RunsWithoutArgumentsAreTrue }
    ensures begun { BegunOutputsTellTheTruth }
{}

/// With the status 0 boards that were asked for are listed, and texts are written.
#[tactic(auto, using(crate::proofs::LawLemmas::boards_written, crate::proofs::LawLemmas::text_written))]
pub fn lists_and_texts_are_written()
    ensures boards { ListsAreWritten }
    ensures texts { TextsAreWritten }
{}

/// Without arguments 3 by 3 boards are solved, for Korf's goal at unit cost.
#[tactic(auto, using(crate::proofs::LawLemmas::default_setups))]
pub fn defaults_are_korfs()
    ensures { DefaultSetupsAreKorfs }
{}

/// A command prints what its options ask for.
pub fn options_are_printed()
    ensures { OptionsArePrinted }
{}

/// With the status 0 a certificate is drawn or written in version 2, and with 5 its fault is
/// reported, or nothing is written. A replay answers the board and the steps of its input.
#[tactic(auto, using(crate::proofs::LawLemmas::inputs_drawn, crate::proofs::LawLemmas::inputs_undrawn, crate::proofs::LawLemmas::upgrades_spelled, crate::proofs::LawLemmas::replays_answered))]
pub fn other_outputs_tell_the_truth()
    ensures drawn { DrawnInputsAreCertificates }
    ensures undrawn { UndrawnInputsAreMistaken }
    ensures upgraded { UpgradesAreSpelled }
    ensures replayed { ReplaysAreAnswered }
{}

/// The status 0 of a run over lines says that no line is bounded or refused, and 1 that one is. The
/// status of a run for a certificate says what is claimed or reported.
pub fn statuses_tell_outputs()
    ensures solved { SolvedStatusesTell }
    ensures certified { CertifiedStatusesTell }
{}

/// A run ends by the fault of a stream only where this stream has failed, or the input is too long.
/// One that ends well has failed at none, and has read and written nothing where it has not begun.
pub fn endings_are_seen()
    ensures { EndingsAreSeen }
{}

/// With the status 0, 1 or 5 the sink is flushed, and has not failed.
pub fn well_ended_runs_are_flushed<K: Sink>(sink: &K)
    ensures { WellEndedRunsAreFlushed (K.is_flushed sink.now) }
{
    let _ = sink;
}
