//! Theorems about the definitions. Each function does nothing: its contract is the theorem.
ghost use Rattle.std.specs.Prelude.{◌≡◌, ◌≢◌, ℕ, List, [], ◌∷◌, ◌++◌};
ghost use Rattle.json_lines.specs.Lines.{DeskLine, HasNumbersInRange, Teach, TeachLine, text, texts};
ghost use Rattle.json_lines.specs.PacketLines.{HasPacketNumbersInRange, max_packet_line, packet_text, reason_word};
ghost use Rattle.json_lines.specs.declared.packet.PacketLine.{PacketLine};
ghost use Rattle.gateway_state.specs.declared.handling_reason.HandlingReason.{HandlingReason};
ghost use Rattle.json_lines.specs.declared.limits.TheConstants.{MAX_PACKET_LINE};

/// Lines that together have the text of a teach line are one teach line, with the same outcome.
pub fn teach_text_determines_outcome()
    ensures { (lines : List DeskLine) (reported : TeachLine) → texts lines ≡ text (Teach reported)
        → (line : TeachLine) × (lines ≡ Teach line ∷ []) × (line.outcome ≡ reported.outcome) }
{}

/// Teach lines with the same text and with numbers in range have the same profile, ID, maker and outcome.
pub fn teach_texts_are_injective()
    ensures { (line reported : TeachLine) → HasNumbersInRange line → HasNumbersInRange reported
        → text (Teach line) ≡ text (Teach reported) → line ≡ reported }
{}

/// Each word for a reason stands for one reason.
pub fn reason_words_are_injective()
    ensures { (why other : HandlingReason) → reason_word why ≡ reason_word other → why ≡ other }
{}

/// Packet lines with the same text and with numbers in range are equal: they show the same packet, field by field, and
/// the same reason.
pub fn packet_texts_are_injective()
    ensures { (line other : PacketLine) → HasPacketNumbersInRange line.packet → HasPacketNumbersInRange other.packet
        → packet_text line ≡ packet_text other → line ≡ other }
{}

/// Whatever follows them, a line for the desk and a packet line never have the same text. So a reader can separate them
/// line by line.
pub fn desk_and_packet_lines_differ()
    ensures { (line : DeskLine) (packet : PacketLine) (a b : List ℕ) → text line ++ a ≢ packet_text packet ++ b }
{}

/// The capacity of a packet line is the length of the longest.
pub fn packet_line_limits_agree()
    ensures { MAX_PACKET_LINE ≡ max_packet_line }
{}
