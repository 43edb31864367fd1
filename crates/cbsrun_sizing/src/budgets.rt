//! The greatest budget that each server could have.

ghost use Rattle.std.specs.Prelude.{◌≡◌, IfOk, OnOk, length};
ghost use Rattle.cbs_rate.specs.Plan.{IsPlan, IsGreatestBudget};
ghost use Rattle.cbsrun_sizing.specs.Budgets.{without, AreGreatest};

use cbs_rate::Plan;
use std::alloc::{AllocError, Global};

/// Returns the plan without one of its servers.
fn without(plan: &Plan, server: u16) -> Plan
    ensures { result ≡ without plan.now server }
{
    let mut others = Plan::new(plan.bound());
    for other in 0..plan.len() as u16 {
        if other != server {
            let reservation = plan.get(other).unwrap();
            others.admit(reservation).unwrap();
        }
    }
    others
}

/// Returns the greatest budget that a server of a plan could have at this period, if all others stay as they are, or 0 if
/// it could have none.
pub fn greatest_budget_at(plan: &Plan, server: u16, period: u64) -> u64
    ensures { IsGreatestBudget (without plan.now server) period result }
{
    without(plan, server).greatest_budget(period)
}

/// Returns, for each server of a plan, the greatest budget that it could have at its period, if all others stay as they
/// are. The only error is out of memory.
pub fn greatest_budgets(alloc: Global, plan: &Plan) -> Result<Vec<u64>, AllocError>
    ensures greatest { IfOk result (λ budgets.
        AreGreatest plan.now (length plan.now.rates) budgets.items) }
    ensures lawful { OnOk result (IsPlan plan.now) }
{
    let servers = plan.len() as u16;
    let mut budgets = Vec::with_capacity(alloc, usize::from(servers))?;
    for server in 0..servers {
        let period = plan.get(server).unwrap().period();
        budgets.push(greatest_budget_at(plan, server, period))?;
    }
    Ok(budgets)
}
