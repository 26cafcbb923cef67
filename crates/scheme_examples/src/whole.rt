// The states by which the contracts of the schemes speak tell all of them, and lists of orders compute on them.
ghost use Rattle.schemes.specs.Full.{full_state, full_act};
ghost use Rattle.schemes.specs.Owner.{owner_state, owner_act};
ghost use Rattle.schemes.specs.Version.{version_state, version_act};
ghost use Rattle.scheme_examples.specs.Whole.{TellsAll, StatesTellAll, Computes, OrdersCompute};

use schemes::version::Version;

/// Two schemes of equal states are equal, so what an order makes of a state is what it makes of the scheme.
pub fn states_tell_all() -> u8
    ensures full { TellsAll full_state }
    ensures owner { TellsAll owner_state }
    ensures version { TellsAll (λ (v : Version). version_state v.kept) }
{
    compare_states();
    0
}

fn compare_states()
    ensures { StatesTellAll }
{}

/// What generic code promises of its orders is, at a given scheme, the state that the orders compute.
pub fn orders_compute() -> u8
    ensures full { Computes full_state full_act }
    ensures owner { Computes owner_state owner_act }
    ensures version { Computes (λ (v : Version). version_state v.kept) version_act }
{
    compute_orders();
    0
}

fn compute_orders()
    ensures { OrdersCompute }
{}
