//! Streams, futures and their ends, waitable sets and events: what stands, and what agrees, under premises on worlds and on what is kept that their
//! definitions name with each law, and that no law keeps yet.

ghost use Rattle.standing.specs.Channels.{ChannelsAreAlike, ChannelsAreMade, ChannelsChange};
ghost use Rattle.standing.specs.EndMarks.{BegunIsMarked, SameEntriesStayMarked, AddedStayMarked, RemovedStayMarked, ChangedStayMarked, StreamsStayMarked, FuturesStayMarked, ChannelsStayMarked, TellingLeavesOther, DroppingLeavesOther, MeetingLeavesOther, SaidStaysMarked, GoneStaysMarked};
ghost use Rattle.standing.specs.Ends.{ChannelIsMade, EndIsDropped, CopyIsCancelled, CopyIsAsked};
ghost use Rattle.standing.specs.EndReplies.{EndIsAnswered, CopyResumes};
ghost use Rattle.standing.specs.Events.{NothingIsHeard, CancelIsHeard};
ghost use Rattle.standing.specs.Hearing.{DeliveryFollows, PollFollows, NothingFollows, CancelFollows};
ghost use Rattle.standing.specs.News.{ReadyIsAlike};
ghost use Rattle.standing.specs.Seen.{GraphIsSeen};
ghost use Rattle.standing.specs.Waits.{EventIsDelivered, SetIsPolled, SetIsWaitedFor};

/// Streams and futures that are kept are found, made and changed as those are for which they stand.
pub fn channels_stand()
    ensures found { ChannelsAreAlike }
    ensures made { ChannelsAreMade }
    ensures changed { ChannelsChange }
{}

/// Built-ins of streams and futures do what the machine does: a new one with its ends, a read and a write up to where elements go over, the copy
/// that is given up, and an end that is dropped; each by its canonical function, of which the same is asked as the machine asks. A task that waited
/// for its copy goes on.
pub fn ends_agree()
    ensures made { ChannelIsMade }
    ensures dropped { EndIsDropped }
    ensures cancelled { CopyIsCancelled }
    ensures asked { CopyIsAsked }
    ensures answered { EndIsAnswered }
    ensures resumed { CopyResumes }
    ensures seen { GraphIsSeen }
{}

/// An event comes to a task, or none, as the machine has it come: at a wait as eight bytes and an answer, at a callback as arguments; that of a
/// ready member, of which one is picked; and a task waits for one of a set, or polls it. What has news is the same on both sides.
pub fn events_agree()
    ensures nothing { NothingIsHeard }
    ensures cancelled { CancelIsHeard }
    ensures delivered { EventIsDelivered }
    ensures polled { SetIsPolled }
    ensures waited { SetIsWaitedFor }
    ensures ready { ReadyIsAlike }
{}

/// Each end in a table stays of a stream or a future that is there, and of its type, and its entry says whether it is idle: where an instance
/// begins or has the same entries, where entries come, go or change, and where a stream or a future is made, or is changed whose ends are said
/// right. What happens at one end leaves whether the other one is idle.
pub fn ends_marked()
    ensures begun { BegunIsMarked }
    ensures same { SameEntriesStayMarked }
    ensures added { AddedStayMarked }
    ensures removed { RemovedStayMarked }
    ensures changed { ChangedStayMarked }
    ensures streams { StreamsStayMarked }
    ensures futures { FuturesStayMarked }
    ensures channels { ChannelsStayMarked }
    ensures told { TellingLeavesOther }
    ensures dropped { DroppingLeavesOther }
    ensures met { MeetingLeavesOther }
    ensures said { SaidStaysMarked }
    ensures gone { GoneStaysMarked }
{}

/// An event that a part left to come comes to the acting task, behind the lines of the part, as the machine has it come: that of a member of a set,
/// also where it is polled, none, and that its cancellation is asked.
pub fn events_follow()
    ensures delivered { DeliveryFollows }
    ensures polled { PollFollows }
    ensures nothing { NothingFollows }
    ensures cancelled { CancelFollows }
{}
