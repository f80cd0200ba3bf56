//! That states like this are valid.

ghost use Rattle.delay_model.specs.Valid.{IsValid, HasRoom};
ghost use Rattle.model_examples.specs.TwoTrains.{opts, network, start};

/// The schedule's state is valid, and its numbers leave room for what is spare.
pub fn schedule_is_valid()
    ensures valid { IsValid (network opts) (start opts) }
    ensures room { HasRoom (start opts) }
{}
