//! A theorem about the definitions. The function does nothing: its contract is the theorem.
ghost use Rattle.actuator_commands.specs.Packets.{MessagesHaveRecipients};

/// The table of recipients and the table of messages agree for each order.
pub fn messages_have_recipients()
    ensures { MessagesHaveRecipients }
{}
