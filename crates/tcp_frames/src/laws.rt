//! Laws of octets and the messages in them.
ghost use Rattle.tcp_frames.specs.Laws.{OctetsSplitOnce, WholeMessagesJoin};

/// All octets are messages and a rest, in one way alone: so it does not matter how they were cut on their way.
pub fn octets_split_once()
    ensures { OctetsSplitOnce }
{}

/// Whole messages that are taken off the front, and the messages behind them, are those of all octets.
pub fn whole_messages_join()
    ensures { WholeMessagesJoin }
{}
