// The joint table of instances: what the definitions come to at single values.
#![tactic(auto)]

ghost use Rattle.instances.specs.Costs.{PoolCosts};
ghost use Rattle.instances.specs.Primaries.{FivePrimaries};

pub mod costs;
pub mod primaries;

// Each row of the table is a theorem over the definitions that the contracts cite.
pub fn instances_stand()
    ensures pool { PoolCosts }
    ensures primaries { FivePrimaries }
{}
