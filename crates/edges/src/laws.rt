//! A law of connections and their conversations.
ghost use Rattle.edges.specs.Connections.{ConnectionsAreInOrder};

/// Of a connection, until it is left: what came of it are its conversations, one after another, and what is still there;
/// where these are whole messages, eight of each at most, so are its messages; and the replies that were kept, one after
/// another, are what went and what is to go. So it does not matter into how many conversations it was cut.
pub fn connections_are_in_order()
    ensures { ConnectionsAreInOrder }
{}
