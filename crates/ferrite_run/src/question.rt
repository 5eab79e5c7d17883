use fer_events::{Events, Pairs};
use litmus_syntax::Litmus;
use model_reader::Model;

/// What commands on a litmus file and a model are about: the test, the model, the events of the test, and those pairs of them
/// that the model keeps.
#[derive(Debug, Drop)]
pub struct Question {
    pub litmus: Litmus,
    pub model: Model,
    pub events: Events,
    pub pairs: Pairs,
}
