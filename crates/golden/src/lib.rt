//! The program golden as one call. [`golden_with`] does the command of a call's words, with files from a shelf and with bridges that its caller hands
//! in; [`golden`] is the call without bridges. It writes the text to one output, and at most one line to another, which the usage of each command may
//! follow. It returns the status. gg_words defines which words are which command.
//!
//! `run` prints the run on the trace of the circuit with the partition's pipes and bridges, from the network of the cut, window by window, or by the
//! simulator. Each clock has an edge in the cycles of the ratio that the partition gives it, otherwise in each cycle. The text is the same, whatever
//! the rest of the partition and the number of workers. `replay` does a list of steps on the network of the cut, and prints the tokens of each
//! channel. `check` prints the machines, the channels and the needs of the partition's cut. A partition with a fault is refused. `demo` makes a
//! circuit, a partition and a trace, runs their network, and prints a summary. `save` runs the network of the cut up to a cycle, and prints a
//! snapshot: the state of the circuit with the pipes before that cycle. `resume` prints the run that begins with a snapshot, from the network of a
//! cut with the same pipes.
//!
//! The call has promises (`Promised`, which golden_commands defines with all other definitions) for every shelf, all outputs and all bridges. Of a
//! bridge's code only the contract is used (gg_bridge's `Bridge`):
//!
//! - `outcome`: the status, the text on `out` and the line on `err` are an end of the words' command, or the report for words that aren't a command.
//!   A command is an order of files. It ends if a file is refused, after each file before it was accepted; if a put fails; if an allocation fails; or
//!   with its whole text. With status 0 the text on `out` is the text of the run of the reference circuit with the bridges' models on the trace
//!   (`IsTextOf`). It is the circuit with a register for each pipe, or the circuit itself if there is none, joined with the model of each of the
//!   partition's bridges. Its clocks have the ratios that the partition gives them (`IsRunBy`). For any flat circuit that the bytes mean, each such
//!   run on the trace has this text and no other (`IsOnly`). The same holds for the text of the cut (`IsCutTextOf`), for the summary of a demo
//!   (`IsDemoText`), for the text of the marking that the steps lead to (`IsReplayOf`), for the snapshot of the run before a cycle (`IsSavedText`),
//!   and for the text of the run that begins with a snapshot (`IsResumedText`). The tokens of each channel are the first values of its signal in that
//!   run, after the 0 of a pipe.
//! - `by_network`: the text that `run` wrote without `--mono`, with status 0, is also the text of the network of the cut (`IsNetworkText`). Host
//!   steps bring its rows to the trays of the top's outputs, and bring no others there, in whatever order they are done. Therefore the network has no
//!   other text. This isn't claimed of `--mono`.
//! - `by_steps`: the text that `replay` wrote with status 0 is also the text of the network that the steps lead to from the network of the cut
//!   (`IsSteppedText`). With status 9 this network refuses the reported step for the reported cause (`TellsRefusedStep`).
//! - `resumed`: `resume` of a snapshot that `save` wrote, under any partition with the same pipes and ratios, writes the header of `run`'s text, and
//!   then its rows starting at the saved cycle.
//! - Causes (`judged`, `no_command`, `not_loaded`, `not_written`, `over`): each status except 0 and 5 has its reason. A
//!   load or a put that failed is counted by its shelf or output. `nothing_written`: a refusal leaves `out` as it was.
//! - Faults are reported (`unasked`, `due`, `unread`, `partitioned`, `traced`, `stepped`): words that aren't a command
//!   give their status. If no load fails, a known file that has to be refused gives exactly its status and a line that
//!   is right for it. For a fault of reading, of a partition, of a trace, of a step and of a snapshot only one line is right.
//! - `complete`: if no load and no put fails, files that are known, within their limits and accepted give status 0.
//!
//! The shelf's files stay the same, and no count falls.
//!
//! What isn't promised: each of `unasked` to `complete` also allows status 5, because an allocation may fail at any time. That the texts of a demo
//! have no fault is tested, not proved; if one had, the status would be 5. If a file's contents are unknown, as with the system's files, `outcome` is
//! about *some* bytes that it may have. A text that was written is then the run of a circuit on a trace that the files may have had, and no contract
//! says which they were. For an output with unknown contents, as the system's, no clause says what was written.
#![tactic(auto)]

mod call;
mod check;
mod demo;
mod laws;
mod replay;
mod resume;
mod run;
mod save;

pub use call::{golden, golden_with};
pub use laws::{refusals_are_exact, resumed_runs_go_on};
