//! Theorems about components. Each is the contract of a function with an empty body.

ghost use Rattle.qss_components.specs.ComponentTheorems.{AgreementLasts, MessagesKeepAgreement, ComponentsStand, ComponentsMove, CrossingsTell, RowsTellHandlers, SettledStand, NamedSendsOne};

/// Components that receive no message agree with the values of their variables at later ticks.
pub fn agreement_lasts()
    ensures { AgreementLasts }
{}

/// After a message is sent to its receivers, all components agree with the new value.
pub fn messages_keep_agreement()
    ensures { MessagesKeepAgreement }
{}

/// Components that represent a snapshot have lines, detectors and due ticks that represent it. The
/// theorems on event-free ticks require these.
pub fn components_stand()
    ensures { ComponentsStand }
{}

/// Components that agree with a snapshot represent it if no function has a sum to send.
pub fn settled_components_stand()
    ensures { SettledStand }
{}

/// Components that represent a snapshot represent the moved snapshot some ticks later.
pub fn components_move()
    ensures { ComponentsMove }
{}

/// A crossing is true exactly if its condition holds.
pub fn component_crossings_tell()
    ensures { CrossingsTell }
{}

/// The rows of handlers list the effects of the handlers.
pub fn components_hear_handler_rows()
    ensures { RowsTellHandlers }
{}

/// An integrator with a named rule sends exactly one message.
pub fn named_component_sends_one()
    ensures { NamedSendsOne }
{}
