//! Laws: facts about the reports for files, and about runs that go on from a snapshot. Each is the contract of a function.
ghost use Rattle.std.specs.Prelude.{◌≡◌, ℕ, List};
ghost use Rattle.gg_cut_plan.specs.Bridges.{Models};
ghost use Rattle.gg_read.specs.Text.{HasReadFault};
ghost use Rattle.gg_read.specs.declared.text.ReadFault.{ReadFault};
ghost use Rattle.gg_io.specs.Said.{Said};
ghost use Rattle.golden_commands.specs.Lines.{TellsUnread};
ghost use Rattle.gg_words.specs.declared.command.Cmd.{Cmd};
ghost use Rattle.golden_commands.specs.Commands.{Asked, known_of, order_behind, order_of};
ghost use Rattle.gg_io.specs.Order.{IsExact, IsUnique, Load};
ghost use Rattle.golden_commands.specs.Partition.{partition_file_for};
ghost use Rattle.golden_commands.specs.Run.{TellsCircuit};
ghost use Rattle.golden_commands.specs.GoesOn.{ResumedIsTheRest, RunsGoOn, SavedIsAccepted};

use gg_front::{faults_apart, one_meaning};
use gg_partfile::one_answer;
use gg_read::one_fault_line;
use gg_snap::{one_snapshot, plans_can_save};
use gg_trace::one_first_fault;

/// Whatever models are handed in, nothing is reported for accepted bytes of a command's file, and all that is reported for other bytes has
/// one status, which is a judgement. For a partition, a trace, steps and a snapshot at most one thing is reported. For a circuit with a fault
/// of reading only that fault is reported.
pub fn refusals_are_exact()
    ensures exact { (models : Models) (command : Cmd) → IsExact (order_of models command) }
    ensures unique { (models : Models) (command : Cmd) (asked : Asked) (circuit : List ℕ)
        → IsUnique (Load (partition_file_for (known_of models command) circuit asked.partition)
        (order_behind models command circuit)) }
    ensures unread { (bytes : List ℕ) (fault : ReadFault) (said other : Said) → HasReadFault bytes fault → TellsUnread fault said → TellsCircuit bytes other → other ≡ said }
{
    one_fault_line();
    faults_apart();
    one_meaning();
    one_answer();
    one_first_fault();
    plans_can_save();
    one_snapshot();
}

/// `resume` goes on where `save` stopped, under any partition with the same pipes and the same ratios of clocks and without bridges, whatever its
/// units, its memories, its direct channels and its capacities. A run that starts from the state of another run before a cycle prints the rest of
/// what the other prints. The text that `save` writes is accepted as a snapshot, and `resume` writes the rest of the text that `run` writes.
pub fn resumed_runs_go_on()
    ensures runs { RunsGoOn }
    ensures accepted { (models : Models) → SavedIsAccepted models }
    ensures texts { (models : Models) → ResumedIsTheRest models }
{
    one_meaning();
}
