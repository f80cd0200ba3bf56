//! What holds of the replies that are written window after window.

ghost use Rattle.std.specs.Prelude.{◌≡◌, ◌≤◌, ◌↔◌, ◌+◌, ◌++◌, ◌∷◌, [], List, ℕ, Some, Ok, length, slice_get, take};
ghost use Rattle.delay_model.specs.declared.network.Network.{Network};
ghost use Rattle.delay_model.specs.declared.state.State.{State};
ghost use Rattle.delay_model.specs.Windows.{CountsDoNotFall, lines_of, single_windows};
ghost use Rattle.delay_report.specs.declared.replies.Reply.{Reply};
ghost use Rattle.information_service.specs.Lines.{accepted_of, names_after};
ghost use Rattle.information_service.specs.Output.{AreReplies, IsReplyTo};
ghost use Rattle.information_service.specs.ServiceState.{service_after};
ghost use Rattle.message_reader.specs.declared.resolve_queries.AskedQuery.{AskedQuery};
ghost use Rattle.message_reader.specs.declared.wire.WireQuery.{WireQuery};
ghost use Rattle.message_reader.specs.ResolvedQueries.{query_resolved};
ghost use Rattle.mt_io.specs.Lines.{Line};
ghost use Rattle.schedule_build.specs.Directory.{Names};
ghost use Rattle.query_crew.specs.Served.{IsQueryReply, shown_count, shown_counts, AreWindowReplies, AreRepliesFrom, replies_of, text_of_replies, AreServed, IsServed};
ghost use Rattle.query_crew.specs.Windows.{AreReadWindows};

/// Where each window has its replies, the counts that are shown to one client do not fall along all
/// lines. They do not fall within a window, and a count of a later window is not below the number
/// of messages that are accepted by the end of an earlier one.
pub fn counts_do_not_fall_along_all_lines()
    ensures { (nw : Network) (names : Names) (st : State) (ws : List (List Line))
        (replies : List (List Reply)) → AreRepliesFrom nw names st [] ws replies
        → CountsDoNotFall (shown_counts (lines_of ws) (replies_of replies)) }
{}

/// Each reply to a query that is not bad shows the count of the state in which it is answered.
pub fn queries_show_the_count_of_their_state()
    ensures { (nw : Network) (names : Names) (st : State) (before window : List Line) (number : ℕ)
        (q : WireQuery) (asked : AskedQuery) (reply : Reply)
        → (r : IsQueryReply nw names st before window number q reply)
        → query_resolved names q ≡ Ok asked → shown_count reply ≡ Some r.count }
{}

/// For no windows nothing is written. For one window more the texts of its replies are written
/// behind what is written for the windows before it. Likewise for the last lines of an input, which
/// are a window if there are any: then all lines of the input are served.
pub fn one_window_more_is_served()
    ensures none { (nw : Network) (names : Names) (st : State) → AreServed nw names st [] [] }
    ensures more { (nw : Network) (names : Names) (st : State) (ws : List (List Line))
        (window : List Line) (bytes : List ℕ) (replies : List Reply)
        → AreServed nw names st ws bytes
        → AreWindowReplies nw names st (lines_of ws) window replies
        → AreServed nw names st (ws ++ window ∷ [])
        (bytes ++ text_of_replies (names_after nw names st (lines_of ws ++ window)) replies) }
    ensures input { (nw : Network) (names : Names) (st : State) (ws : List (List Line))
        (last : List Line) (bytes : List ℕ) (replies : List Reply) → AreReadWindows ws last
        → AreServed nw names st ws bytes → AreWindowReplies nw names st (lines_of ws) last replies
        → IsServed nw names st (lines_of ws ++ last)
        (bytes ++ text_of_replies (names_after nw names st (lines_of ws ++ last)) replies) }
{}

/// Whoever answers each line of a window in the state after the lines before it gives replies of
/// the window.
pub fn replies_in_order_are_those_of_a_window()
    ensures { (nw : Network) (names : Names) (st : State) (before window : List Line)
        (replies : List Reply) → length replies ≡ length window
        → ((place : ℕ) (x : Line) (reply : Reply) → slice_get window place ≡ Some x
        → slice_get replies place ≡ Some reply
        → IsReplyTo (service_after nw names st (before ++ take place window))
        (length before + (place + 1)) x reply)
        → AreWindowReplies nw names st before window replies }
{}

/// Where each line is a window of its own, what is written is one reply line after the other, each
/// in the state after the lines before it.
pub fn single_windows_are_answered_line_by_line()
    ensures { (nw : Network) (names : Names) (st : State) (lines : List Line) (bytes : List ℕ) →
        AreServed nw names st (single_windows lines) bytes ↔ AreReplies nw names st [] lines bytes }
{}

/// The first of the messages that are accepted up to the end of a window are the first of all that
/// the input has: what stands behind the window does not change them.
pub fn first_messages_are_those_of_the_input()
    ensures { (nw : Network) (names : Names) (st : State) (lines later : List Line) (count : ℕ) →
        count ≤ length (accepted_of nw names st lines)
        → take count (accepted_of nw names st (lines ++ later))
        ≡ take count (accepted_of nw names st lines) }
{}

/// What a query asks does not depend on when its names are looked up.
pub fn queries_are_resolved_by_the_names_of_the_feed()
    ensures { (nw : Network) (names : Names) (st : State) (lines : List Line) (q : WireQuery) →
        query_resolved (names_after nw names st lines) q ≡ query_resolved names q }
{}
