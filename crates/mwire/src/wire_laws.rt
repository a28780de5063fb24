// SPDX-License-Identifier: Apache-2.0
// The laws of the wire form. Each function's contract is the law, and its body is empty: the code never calls them.
ghost use Rattle.mwire.specs.WireLaws.{EventsHaveStream, NormalAnswersAreServed, NormalStreamsAreServed, LinesHaveAnswers};

use mnodes::NodeStore;

/// Any events of terminals from 1 to 9999 have a stream, if their texts are not too long, have no line feed and do not end in a
/// carriage return: their lines, each followed by a line feed.
pub fn events_have_stream()
    ensures { EventsHaveStream }
{}

/// If nothing casts doubt on the store, and no reply is a failure, lines are answered as the definitional interpreter answers them, by any settings.
pub fn normal_answers_are_served<S: NodeStore>()
    ensures { NormalAnswersAreServed S.NodeStore }
{}

/// If nothing casts doubt on the store, and no reply is a failure, a stream is answered from an opening world as the definitional interpreter answers
/// it, by any settings.
pub fn normal_streams_are_served<S: NodeStore>()
    ensures { NormalStreamsAreServed S.NodeStore }
{}

/// Any lines have an answer, by normal steps, by any settings and over any store.
pub fn lines_have_answers<S: NodeStore>()
    ensures { LinesHaveAnswers S.NodeStore }
{}
