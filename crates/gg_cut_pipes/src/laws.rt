//! Laws: facts about the definitions. Each is the contract of a function with an empty body.
ghost use Rattle.std.specs.Prelude.{◌<◌, ◌≤◌, ◌+◌, ◌^◌, [], length};
ghost use Rattle.gg_cut_plan.specs.Ports.{machine_end, ports_of};
ghost use Rattle.gg_cut_plan.specs.declared.plan.Plan.{Plan};
ghost use Rattle.gg_order.specs.Design.{Ordered, IsDesign};
ghost use Rattle.gg_cut_pipes.specs.inside.CanPipe.{CanPipe};
ghost use Rattle.gg_cut_pipes.specs.inside.Tables.{piped_signals};

/// Numbers of 32 bits suffice for what `pipe` numbers. A cut without its bridges has at most 33,025 machines. The registers and the pipes are together fewer than
/// 2^32, since each register is held by a signal.
pub fn numbers_suffice()
    ensures machines { (design : Ordered) (plan : Plan) → IsDesign design → CanPipe design plan → machine_end (ports_of design.circuit design.tree plan.listed []) ≤ 33025 }
    ensures registers { (design : Ordered) (plan : Plan) → CanPipe design plan → length design.circuit.registers + length (piped_signals (length design.circuit.signals) plan.channels) < 2 ^ 32 }
{}
